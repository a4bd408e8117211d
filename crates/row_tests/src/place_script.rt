//! Rows of which a token stands in one place alone: among constant bytes, in a word, in a number,
//! in a stamp.
use crate::play::play;

/// The moments are 2025-03-01 00:00:00,404 and 2021-11-12 11:11:11,111.
static PLACE_SCRIPT: &str = r#"
# constant bytes before and behind a slot, a `\` among them, and one before a byte that needs it
type "alpha \x12 beta"
type "gamma \x12"
type "count \x11"
type "plain"
type "at\\\\dir \x11"
type "ab\\\x12 \x11"
type "x alpha \x12 beta y"
word "task_1"
word "zeta7"
word "u\\x9"

# Tokens that only constant bytes bring, only a word, only a number, and only a stamp.
# constant bytes
row "alpha"             0:0                 certain
row "alpha"             1:0                 rejected
row "alpha*zeta7"       0:1                 tried
row "alpha*zeta7"       0:0                 rejected
row "alpha*zeta7"       1:1                 rejected
# constant bytes on both sides of a slot
row "alpha * beta"      0:0                 certain
row "alpha task_1 beta" 0:0                 tried
row "a task_1 b"        0:0                 tried
# constant bytes in another order, which tells where no slot may bring them
row " alpha * beta "    6:0                 certain
row " beta * alpha "    6:0                 rejected
row "beta*alpha"        6:0                 tried
# a word
row "zeta7"             1:1                 tried
row "zeta7"             1:0                 rejected
row "zeta7"             3:-                 rejected
# a number
row "4711"              2:4711              tried
row "4711"              2:4712              rejected
row "4711"              3:-                 rejected
# a stamp
row "2025-03-01"        3:-@1:1740787200404 tried
row "2025-03-01*plain"  3:-@1:1740787200404 tried
row "2025-03-01*plain"  3:-@1:1636715471111 rejected
row "2025-03-01"        3:-                 rejected
# a `\`
row "t\\\\dir"          4:5                 certain
row "\\\\dir*55"        4:55                tried
row "\\\\dir*55"        4:56                rejected
row "t\\\\\\\\dir"      4:5                 rejected
row "u\\\\x9"           1:2                 tried
row "u\\\\x9"           1:0                 rejected
# constant bytes before one that needs a `\`
row "ab"                5:1                 certain
row "ab*77"             5:77                tried
row "ab\\\\"            5:1                 rejected
# nine tokens, each of which constant bytes, words and numbers bring
row "a e t z c u p l g" 0:0                 rejected
# wildcards alone
row "*"                 3:-                 certain
row "?"                 3:-                 certain

# an archive without words
books 1 100
type "alpha \x12 beta"
type "gamma \x12"
type "count \x11"
type "plain"
type "at\\\\dir \x11"
type "ab\\\x12 \x11"
type "x alpha \x12 beta y"
row     "zeta7"   3:-  rejected
row     "ount*48" 2:47 rejected
row     "ount*47" 2:47 tried
segment "plain"   3    - yes
segment "zeta7"   1,3  - no
"#;

#[test]
fn rows_by_the_places_of_tokens(rt: HostRuntime) -> Result<(), usize> {
    play(rt.alloc(), PLACE_SCRIPT)
}
