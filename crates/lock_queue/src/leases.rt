// Lease terms: how long a desk that fell silent is waited for.
ghost use Rattle.std.specs.Prelude.{◌≡◌};
ghost use Rattle.lock_queue.specs.Lease.{valid_term, wait, expired};

use crate::Lease;

impl Lease {
    // Whether the period and the drift are within their limits.
    pub fn valid_term(self) -> bool
        ensures { result ≡ valid_term self }
    {
        (0.0 < self.period) & (self.period <= 86400.0) & (0.0 <= self.drift) & (self.drift <= 0.5)
    }

    // How long to wait.
    pub fn wait(self) -> f64
        ensures { result ≡ wait self }
    {
        self.period * (1.0 + self.drift)
    }

    // Whether the wait is over.
    pub fn expired(self, begin: f64, now: f64) -> bool
        ensures { result ≡ expired self begin now }
    {
        self.wait() <= now - begin
    }
}
