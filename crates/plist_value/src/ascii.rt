//! Borrowed ASCII bytes.
ghost use Rattle.std.specs.Prelude.{◌≡◌, ◌<◌, ◌↔◌, IsSome, IfSome, All, true, nat_lt};
ghost use Rattle.std.specs.List.{list_all};

// Bytes below 128, each of them a unit of a string.
#[derive(Clone, Copy, Debug)]
pub(crate) struct Ascii<'a> {
    pub(crate) text: &'a str,
    ghost ascii: { list_all (λ octet. nat_lt octet 128) text.now ≡ true },
}

impl<'a> Ascii<'a> {
    // Wraps these bytes. Returns `None` if and only if a byte is above 7f. Reads them once.
    pub(crate) fn of(octets: &'a [u8]) -> Option<Ascii<'a>>
        ensures ascii { IsSome result ↔ All (λ octet. octet < 128) octets.entry.now }
        ensures text { IfSome result (λ ascii. ascii.text.now ≡ octets.entry.now) }
    {
        if !octets.is_ascii() {
            return None;
        }
        let text = unsafe { str::from_utf8_unchecked(octets) };
        Some(Ascii { text })
    }
}
