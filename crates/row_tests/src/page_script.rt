//! Rows that are told by the words of their page.
use crate::play::play;

/// The word of a decimal has the digits read as one number, then how many there are less one, and
/// how many of them stand behind the point less one. 0x510 and 0x8000000000000510 are 0.5 and -0.5.
static PAGE_SCRIPT: &str = r#"
# one that has a token of its own, one with a word alone, one with a number, one with a decimal, one
# with two words, one without a slot, and one with a number alone
type "late \x12 end"
type "gone \x12"
type "code \x11 at \x12"
type "took \x13 for \x12"
type "from \x12 to \x12"
type "plain"
type "size \x11"
word "task_1"
word "zeta_7"
word "k404"
word "beta_2"
word "id27891811x"
word "027891811"

# the word is that of the first row, of the last, of the only one, of none
page "zeta_7" 1:1=stays 1:0=passed 1:3=passed
page "zeta_7" 1:0=asked 1:3=passed 1:1=stays
page "zeta_7" 1:1=stays
page "zeta_7" 1:0=asked
page "zeta_7"
# it is the second of two
page "zeta_7" 4:0,1=stays 4:1,0=stays 4:0,3=passed
# a row without variables between two, and one whose own words do not count behind one that has one
page "zeta_7" 4:0,0=asked 5:-=passed 1:1=stays 5:-=passed 1:0=passed
# log types that bring the token, and such as do not
page "late*zeta_7" 1:1=passed 0:1=stays 0:0=passed 1:0=passed
page "late" 0:0=stays 1:0=passed
# a number that is the word's by chance
page "zeta_7" 2:1,0=asked 2:5,0=passed 2:5,1=stays
# a closed number, as all of a variable and as a part of a word
page " 404 " 2:404,0=stays 2:403,0=passed 2:403,2=asked 1:0=passed
page " -404 " 2:-404,0=stays 2:404,0=passed
# a closed decimal
page " 0.5 " 3:0x510,0=stays 3:0x511,0=passed 3:0x8000000000000510,0=passed
page " -0.5 " 3:0x8000000000000510,0=stays 3:0x510,0=passed
# an open number: each row is asked
page "40" 2:404,0=stays 2:5,0=asked 2:5,2=stays 1:0=asked
# an open number beside a word
page "40*zeta_7" 2:404,0=asked 2:404,1=stays 2:5,1=asked
# no token
page "*" 1:0=stays 5:-=stays

# Numbers that a long token may be a part of: those with fewer digits are passed by their words.
# whole numbers about the least one with so many digits
page "27891811" 2:7,0=asked 2:9999999,0=passed 2:10000000,0=asked 2:27891811,0=stays 2:7891811,0=passed 2:278918110,0=stays 6:9527891811=stays 6:2789181=passed
# the least one with so many digits, as all of a number and as a part
page "10000000" 6:7=asked 6:9999999=passed 6:10000000=stays 6:9999998=passed 6:310000000=stays
# below zero
page "10000000" 6:7=asked 6:-10000000=stays 6:7=passed 6:-9999999=asked
# words that hold the digits, among them a number with a zero in front
page "27891811" 2:7,0=asked 2:7,1=passed 2:7,4=stays 2:7,5=stays 4:0,4=stays 4:5,0=stays 1:0=passed
# decimals with as many digits, with more, and with a sign
page "27891811" 3:0xF10,0=asked 3:0x176,0=passed 3:0x1A9986373,0=asked 3:0x1A9986387,0=stays 3:0x109FF3E380,0=stays 3:0xAE576,0=passed 3:0x800000109FF3E380,0=stays 3:0x98968070,0=asked
page "10000000" 3:0x510,0=asked 3:0x98968087,0=stays 3:0x5F5E10080,0=stays 3:0x510,0=passed
# zeros in front, and a point: the digits of a decimal may be few
page "00027891" 3:0x510,0=asked 3:0x6CF387,0=stays 3:0x510,0=asked
page "0.0002789" 3:0x510,0=asked 3:0xAE576,0=stays 3:0x510,0=asked
# beside a word, and beside a longer number
page "27891811*zeta_7" 2:7,0=asked 2:27891811,1=stays 2:27891811,0=asked 2:7,1=asked 2:7,3=passed
page "27891811*474106491523" 6:7=asked 6:27891811=asked 6:474106491523=asked 6:7=passed
# a closed number beside it
page " 404 * 27891811" 2:7,0=asked 2:404,4=stays 2:404,0=asked 2:7,0=passed
# as many digits as a word of eight bytes may have, and more
page "1000000000000000000" 6:7=asked 6:999999999999999999=passed 6:1000000000000000000=stays 6:-1000000000000000000=stays 6:100000000000000000=passed
page "10000000000000000000" 6:7=asked 6:7=passed 6:9223372036854775807=asked

# The word, or the number, is behind each number of rows below fifty.
stays "zeta_7"   50 1 0       1        3
stays "10000000" 50 6 9999999 10000000 5
"#;

#[test]
fn rows_by_their_page(rt: HostRuntime) -> Result<(), usize> {
    play(rt.alloc(), PAGE_SCRIPT)
}
