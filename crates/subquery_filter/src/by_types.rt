//! What is told of a segment by its head without the list of words.
ghost use Rattle.std.specs.Prelude.{◌≡◌, ℕ, List, IsFalse, IsTrue};
ghost use Rattle.wild_match.specs.declared.pattern.Item.{Item};
ghost use Rattle.query_plan.specs.Laws.{IsSearched};
ghost use Rattle.query_plan.specs.Pieces.{wide_pieces};
ghost use Rattle.subquery_filter.specs.ByTypes.{with_words};
ghost use Rattle.subquery_filter.specs.Filter.{HasNoMatch, IsFilter};

use crate::filter::Filter;
use crate::laws::{rows_bring_chunks, rows_bring_runs, verdicts_hold};
use segment_format::Head;

impl Filter {
    /// Whether no word brings a token: so the lists of words in heads tell nothing.
    pub fn spares_words(&self) -> bool
        ensures { IsTrue result → self.now.brought ≡ 0 }
    {
        self.brought == 0
    }

    /// Whether the pattern may match a message of a segment, as `may_match` tells it, by all of its head
    /// but the list of words: whatever words it lists, they bring no more than all words do. Where no word
    /// brings a token, this tells as much. Takes no memory.
    pub fn may_match_types(&self, head: &Head) -> bool
        ensures { IsFalse result → (p : List Item) (names : List (List ℕ)) (texts : List (List ℕ))
            → IsSearched p → IsFilter (wide_pieces p) names texts self.now → (words : List ℕ)
            → HasNoMatch (wide_pieces p) names texts (with_words words head.now) }
    {
        verdicts_hold();
        rows_bring_runs();
        rows_bring_chunks();
        let runs = self.stamped_runs(head);
        let stamped = self.stamps_of(head);
        self.some_may(head.types.as_slice(), runs, stamped, self.brought)
    }
}
