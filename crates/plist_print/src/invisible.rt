//! Invisible characters, according to Unicode 18.0.
ghost use Rattle.std.specs.Prelude.{◌≡◌, Some, None, if◌then◌else◌};
ghost use Rattle.std.specs.Char.Utf16.{surrogate_pair_char};
ghost use Rattle.ucd_table.specs.Rows.{in_ranges};
ghost use Rattle.plist_print.specs.Units.{is_visible_pair};
ghost use Rattle.plist_print.specs.Shown.{visible_ranges};

// Returns the character of a surrogate pair, if it is visible.
pub(crate) fn visible_pair(high: u16, low: u16) -> Option<char>
    ensures { result ≡ (if is_visible_pair high low then Some (surrogate_pair_char high low)
        else None) }
{
    let (0xd800..=0xdbff, 0xdc00..=0xdfff) = (high, low) else {
        return None;
    };
    let code = 0x1_0000 + (u32::from(high) - 0xd800) * 0x400 + (u32::from(low) - 0xdc00);
    if !is_visible(code) {
        return None;
    }
    Some(char::from_u32(code).unwrap())
}

// Returns whether the code point is visible. The proof compares these ranges with the tables of
// the Unicode Character Database. A search of the tables takes ten times as long.
#[inline(always)]
#[tactic(auto, unfolding(ucd_table::specs::Rows::in_ranges))]
pub(crate) fn is_visible(code: u32) -> bool
    ensures { result ≡ in_ranges visible_ranges code }
{
    match code {
        // Tested first, since each half of a pair is tested alone too.
        0xd800..=0xdfff => false,
        // The ranges of most texts.
        0x0020..=0x007e
        | 0x3165..=0xd7ff
        | 0x0350..=0x05ff
        | 0x00ae..=0x034e
        | 0x3001..=0x3163
        | 0x1_d17b..=0xd_ffff
        // The others.
        | 0x00a1..=0x00ac
        | 0x0606..=0x061b
        | 0x061d..=0x06dc
        | 0x06de..=0x070e
        | 0x0710..=0x088f
        | 0x0892..=0x08e1
        | 0x08e3..=0x115e
        | 0x1161..=0x167f
        | 0x1681..=0x17b3
        | 0x17b6..=0x180a
        | 0x1810..=0x1fff
        | 0x2010..=0x2027
        | 0x2030..=0x205e
        | 0x2070..=0x2fff
        | 0xe000..=0xfdff
        | 0xfe10..=0xfefe
        | 0xff00..=0xff9f
        | 0xffa1..=0xffef
        | 0xfffc..=0x1_10bc
        | 0x1_10be..=0x1_10cc
        | 0x1_10ce..=0x1_342f
        | 0x1_3440..=0x1_bc9f
        | 0x1_bca4..=0x1_d172
        | 0xe_1000..=0x10_ffff => true,
        _ => false,
    }
}
