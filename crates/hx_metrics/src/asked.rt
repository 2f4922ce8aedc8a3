//! What a request asks.
ghost use Rattle.std.specs.Prelude.{◌≡◌};
ghost use Rattle.hx_metrics.specs.Answers.{asked_by, read_by};

/// What a request asks, by its method and the path of its target.
#[derive(Clone, Copy)]
pub enum Asked {
    /// The figures.
    Metrics,
    /// The health.
    Health,
    /// Something that is not there.
    OtherPath,
    /// Something else than to read what is there.
    OtherMethod,
}

impl Asked {
    /// What a request asks.
    pub fn by(method: &str, path: &str) -> Asked
        ensures { result ≡ asked_by method.now path.now }
    {
        if path == "/metrics" {
            Asked::Metrics.read_by(method)
        } else if path == "/health" {
            Asked::Health.read_by(method)
        } else {
            Asked::OtherPath
        }
    }

    // A resource is only read.
    fn read_by(self, method: &str) -> Asked
        ensures { result ≡ read_by method.now self }
    {
        if method == "GET" || method == "HEAD" {
            self
        } else {
            Asked::OtherMethod
        }
    }
}
