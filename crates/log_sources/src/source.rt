//! A log that was opened, or could not be.
ghost use Rattle.std.specs.Prelude.{◌≡◌};

use log_seams::{Failed, OpenRefused, Source};

/// A log that was to be opened.
#[derive(Debug, Drop)]
pub enum LogSource<S> {
    /// It is open.
    Opened(S),
    /// It was not opened.
    Unopened {
        /// Why.
        cause: OpenRefused,
        /// How many reads of it have failed, which is how many there were; it stops at the last value.
        faults: u64,
    },
}

impl<S> LogSource<S> {
    ghost use Rattle.log_sources.specs.Sources.{is_opened, refusal_of};

    /// Why it was not opened, where it was not.
    pub fn refusal(&self) -> Option<OpenRefused>
        ensures { result ≡ refusal_of self.now }
    {
        match self {
            LogSource::Opened(_) => None,
            LogSource::Unopened { cause, .. } => Some(*cause),
        }
    }

    /// Whether it was opened.
    pub fn is_open(&self) -> bool
        ensures { result ≡ is_opened self.now }
    {
        match self {
            LogSource::Opened(_) => true,
            LogSource::Unopened { .. } => false,
        }
    }
}

/// A log that was not opened has no bytes, and each read of it fails.
impl<S: Source> Source for LogSource<S> {
    ghost use Rattle.log_sources.specs.Sources.{faults_in, left_in, name_in};

    ghost left = { λ s. left_in S.left s };

    ghost name = { λ s. name_in S.name s };

    ghost faults = { λ s. faults_in S.faults s };

    fn read(&mut self, buf: &mut [u8]) -> Result<usize, Failed> {
        match self {
            LogSource::Opened(source) => source.read(buf),
            LogSource::Unopened { faults, .. } => {
                *faults = faults.saturating_add(1);
                Err(Failed)
            }
        }
    }
}
