//! Laws of tokens. The functions do nothing: what they promise holds of every text.
ghost use Rattle.token_rules.specs.Laws.{OutsideIsOutside, TokensAreApart, TokensCover};

/// Two tokens of a text that overlap are the same token, each byte that is no delimiter lies in a
/// token, and a place is outside in the sense of [`next_token`](crate::next_token) exactly where no
/// token goes on over it.
pub fn tokens_partition()
    ensures apart { TokensAreApart }
    ensures cover { TokensCover }
    ensures outside { OutsideIsOutside }
{}
