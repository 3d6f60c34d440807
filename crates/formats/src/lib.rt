// The versions of images and of commands.
#![tactic(auto)]

ghost use Rattle.std.specs.Prelude.{◌≡◌};
ghost use Rattle.formats.specs.Format.{format_of, version, translations, entry_size, original_at, froms_at, lengths_at, fixed, update_at, blank_at};

// A version.
#[derive(Clone, Copy, PartialEq, Eq)]
pub enum Version {
    V1,
    V2,
}

// The bytes of a version 1 command in front of its payload.
pub const FIXED_V1: usize = 52;

// What differs between the versions, and nothing else: the number in a header; how many translations a card has; how long an entry is, and where in it
// stand the length of the original, and of translation 0 the edition that it was made from and its length; how long a command is in front of its payload, where
// its update pair stands, and where the zeros in front of its expected mark begin.
#[derive(Clone, Copy)]
pub struct Layout {
    pub version: u16,
    pub translations: u8,
    pub entry_size: usize,
    pub original_at: usize,
    pub froms_at: usize,
    pub lengths_at: usize,
    pub fixed: usize,
    pub update_at: usize,
    pub blank_at: usize,
}

const LAYOUT_V1: Layout = Layout {
    version: 1,
    translations: 1,
    entry_size: 32,
    original_at: 28,
    froms_at: 26,
    lengths_at: 30,
    fixed: FIXED_V1,
    update_at: 20,
    blank_at: 36,
};

const LAYOUT_V2: Layout = Layout {
    version: 2,
    translations: 4,
    entry_size: 48,
    original_at: 26,
    froms_at: 28,
    lengths_at: 36,
    fixed: 68,
    update_at: 52,
    blank_at: 21,
};

impl Version {
    // What the version lays out.
    pub fn layout(self) -> Layout
        ensures version { result.version ≡ version (format_of self) }
        ensures translations { result.translations ≡ translations (format_of self) }
        ensures entry_size { result.entry_size ≡ entry_size (format_of self) }
        ensures original_at { result.original_at ≡ original_at (format_of self) }
        ensures froms_at { result.froms_at ≡ froms_at (format_of self) }
        ensures lengths_at { result.lengths_at ≡ lengths_at (format_of self) }
        ensures fixed { result.fixed ≡ fixed (format_of self) }
        ensures update_at { result.update_at ≡ update_at (format_of self) }
        ensures blank_at { result.blank_at ≡ blank_at (format_of self) }
    {
        match self {
            Version::V1 => LAYOUT_V1,
            Version::V2 => LAYOUT_V2,
        }
    }
}
