//! A tag's eight bytes, all at once: capitals folded, and bytes that aren't zero counted.
//!
//! The lower seven bits of each byte leave room for one carry into its highest bit, and that bit then
//! says whether the byte reached a bound.
ghost use Rattle.std.specs.Prelude.{◌≡◌, ◌≤◌};
ghost use Rattle.kinds.specs.Tags.{folded_tag, filled_bytes};
ghost use Rattle.kinds.specs.Laws.{FoldsEachByte, SameByteByByte, FoldsOnce};

/// The lower seven bits of each byte.
const LOW_BITS: u64 = 0x7f7f_7f7f_7f7f_7f7f;
/// The highest bit of each byte.
const TOP_BIT: u64 = 0x8080_8080_8080_8080;
/// What takes 65, the first capital, to 128, in each byte.
const TO_FIRST: u64 = 0x3f3f_3f3f_3f3f_3f3f;
/// What takes 91, past the last capital, to 128, in each byte.
const PAST_LAST: u64 = 0x2525_2525_2525_2525;

/// The tag with each capital counted as its small letter, 32 higher.
pub fn folded_tag(tag: u64) -> u64
    ensures answer { result ≡ folded_tag tag }
    ensures bytewise { FoldsEachByte }
    ensures same { SameByteByByte }
    ensures once { FoldsOnce }
{
    let low = tag & LOW_BITS;
    let capitals = ((low + TO_FIRST) ^ (low + PAST_LAST)) & (tag ^ TOP_BIT) & TOP_BIT;
    tag | (capitals >> 2)
}

/// How many of the tag's bytes aren't zero.
pub fn filled_bytes(tag: u64) -> u32
    ensures answer { result ≡ filled_bytes tag }
    ensures few { result ≤ 8 }
{
    ((((tag & LOW_BITS) + LOW_BITS) | tag) & TOP_BIT).count_ones()
}
