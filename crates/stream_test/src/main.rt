// The reader's step and the walk on one stream: a command with three bytes of payload, one with none, and thirteen bytes more.
#![tactic(auto)]

use formats::Version;

fn main() {
    let mut bytes = [0u8; 120];
    bytes[50] = 3;
    check::expect(stream::next_from(Version::V1, &bytes, 0) == 55);
    check::expect(stream::next_from(Version::V1, &bytes, 55) == 107);
    check::expect(stream::next_from(Version::V1, &bytes, 107) == 107);
    check::expect(stream::end_of(Version::V1, &bytes) == 107);
}
