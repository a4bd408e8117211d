//! Texts that are read by their places: one text, and spans of a line.
ghost use Rattle.std.specs.Prelude.{◌≡◌, ◌∷◌, []};
ghost use Rattle.logtype_text.specs.Encoded.{AreWithin, texts_at};

pub use dict_core::TextSlice;
use logtype_text::Span;

/// One text.
#[derive(Clone, Copy)]
pub(crate) struct OneText<'a> {
    pub(crate) text: &'a [u8],
}

impl TextSlice for OneText<'_> {
    ghost texts = { λ one. one.text.now ∷ [] };

    fn count(&self) -> usize {
        1
    }

    fn at(&self, _place: usize) -> &[u8] {
        self.text
    }
}

/// The texts that stand at some places of a line, without a copy.
#[derive(Clone, Copy)]
pub struct LineSpans<'a> {
    line: &'a [u8],
    spans: &'a [Span],
    ghost within: { AreWithin line.now spans.now },
}

impl<'a> LineSpans<'a> {
    /// The texts at these places, each of which is some bytes of the line.
    pub fn new(line: &'a [u8], spans: &'a [Span]) -> LineSpans<'a>
        requires { AreWithin line.now spans.now }
        ensures line { result.line.now ≡ line.now }
        ensures spans { result.spans.now ≡ spans.now }
    {
        LineSpans { line, spans }
    }
}

impl TextSlice for LineSpans<'_> {
    ghost texts = { λ these. texts_at these.line.now these.spans.now };

    fn count(&self) -> usize {
        self.spans.len()
    }

    fn at(&self, place: usize) -> &[u8] {
        let span = self.spans[place];
        &self.line[span.start..span.end]
    }
}
