//! What a call answered and wrote, and whether that is what is wanted.
use crate::outside::Paper;

/// What a call answered and wrote.
#[derive(Drop)]
pub(crate) struct Told {
    pub(crate) status: u8,
    pub(crate) out: Paper,
    pub(crate) err: Paper,
}

impl Told {
    /// Whether the call answered this and said this.
    fn says(&self, status: u64, err: &[u8]) -> bool {
        u64::from(self.status) == status && self.err.bytes() == err
    }

    /// Whether it answered this and wrote these bytes.
    pub(crate) fn is(&self, status: u64, out: &[u8], err: &[u8]) -> bool {
        self.says(status, err) && self.out.bytes() == out
    }

    /// Whether it answered this, said this, and printed a front of these bytes.
    pub(crate) fn is_front(&self, status: u64, out: &[u8], err: &[u8]) -> bool {
        self.says(status, err) && out.starts_with(self.out.bytes())
    }

    /// Whether it answered this, said this, and what it printed begins with these bytes.
    pub(crate) fn is_begun(&self, status: u64, out: &[u8], err: &[u8]) -> bool {
        self.says(status, err) && self.out.bytes().starts_with(out)
    }

    /// Whether it answered this, said this, and what it printed ends with these bytes.
    pub(crate) fn is_end(&self, status: u64, out: &[u8], err: &[u8]) -> bool {
        self.says(status, err) && self.out.bytes().ends_with(out)
    }

    /// Whether it answered this, said this, and printed a front of the lines and then the last one.
    pub(crate) fn is_front_and(&self, status: u64, lines: &[u8], last: &[u8], err: &[u8]) -> bool {
        let Some(front) = self.out.bytes().strip_suffix(last) else {
            return false;
        };
        self.says(status, err) && lines.starts_with(front)
    }
}
