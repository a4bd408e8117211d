//! Bytes that are put into an array by stores of fixed widths: an array that is assigned is one load
//! and one store, where other copies are calls.
ghost use Rattle.std.specs.Prelude.{◌≡◌, ◌+◌, ◌≤◌, ◌++◌, length, take, drop};

/// How long a row may be that is put together in an array: most rows are an eighth of it.
pub(crate) const ROOM: usize = 1024;

/// What is stored for a run at the front of a text. Most constants between two slots are shorter.
pub(crate) const WIDTH: usize = 32;

// Puts an array to the front.
#[inline(always)]
fn set_front<const N: usize>(out: &mut [u8], from: &[u8; N])
    requires { N ≤ length out.old }
    ensures { out.new ≡ from.now ++ drop N out.old }
{
    let Some(to) = out.first_chunk_mut::<N>() else {
        unreachable!();
    };
    *to = *from;
}

// Puts an array to a place.
#[inline(always)]
fn put_array<const N: usize>(out: &mut [u8; ROOM], at: usize, from: &[u8; N])
    requires { at + N ≤ 1024 }
    ensures { take (at + N) out.new ≡ take at out.old ++ from.now }
{
    set_front::<N>(&mut out[at..], from);
}

// Puts bytes to a place by two stores of one width, of the first and of the last of them, which may
// overlap, and gives the end.
#[inline(always)]
fn put_ends<const N: usize>(out: &mut [u8; ROOM], at: usize, bytes: &[u8]) -> usize
    requires bytes { (N ≤ length bytes.now) × (length bytes.now ≤ N + N) }
    requires room { at + length bytes.now ≤ 1024 }
    ensures end { result ≡ at + length bytes.now }
    ensures written { take result out.new ≡ take at out.old ++ bytes.now }
{
    let Some(first) = bytes.first_chunk::<N>() else {
        unreachable!();
    };
    let Some(last) = bytes.last_chunk::<N>() else {
        unreachable!();
    };
    let seam = at + (bytes.len() - N);
    put_array(out, at, first);
    put_array(out, seam, last);
    seam + N
}

/// Puts bytes to a place, and gives the end.
#[inline(always)]
pub(crate) fn put_bytes(out: &mut [u8; ROOM], at: usize, bytes: &[u8]) -> usize
    requires { at + length bytes.now ≤ 1024 }
    ensures end { result ≡ at + length bytes.now }
    ensures written { take result out.new ≡ take at out.old ++ bytes.now }
{
    match bytes.len() {
        0 => at,
        1 => put_ends::<1>(out, at, bytes),
        2..4 => put_ends::<2>(out, at, bytes),
        4..8 => put_ends::<4>(out, at, bytes),
        8..16 => put_ends::<8>(out, at, bytes),
        16..=32 => put_ends::<16>(out, at, bytes),
        _ => put_many(out, at, bytes),
    }
}

// Puts bytes to a place by a copy of as many as there are, and gives the end.
fn put_many(out: &mut [u8; ROOM], at: usize, bytes: &[u8]) -> usize
    requires { at + length bytes.now ≤ 1024 }
    ensures end { result ≡ at + length bytes.now }
    ensures written { take result out.new ≡ take at out.old ++ bytes.now }
{
    let end = at + bytes.len();
    out[at..end].copy_from_slice(bytes);
    end
}

/// Puts so many bytes of the front of a text to a place, and gives the end. Where they are few, a whole
/// width is stored, and what is behind them is written over later.
#[inline(always)]
pub(crate) fn put_front(out: &mut [u8; ROOM], at: usize, text: &[u8], len: usize) -> usize
    requires within { len ≤ length text.now }
    requires room { at + len + 32 ≤ 1024 }
    ensures end { result ≡ at + len }
    ensures written { take result out.new ≡ take at out.old ++ take len text.now }
{
    if len <= WIDTH {
        if let Some(wide) = text.first_chunk::<WIDTH>() {
            put_array(out, at, wide);
            return at + len;
        }
    }
    put_bytes(out, at, &text[..len])
}
