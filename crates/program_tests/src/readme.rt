//! The example of CONTRIBUTING. `scripts/readme` compares it with these lines.
use plist_convert::{PairFault, line, same_files};
use std::test::Fail;

// The example of CONTRIBUTING:
use plist_convert::{Fault, canonicalise};
use std::alloc::Global;

// Cache key for anything derived from a property list: the same for all its spellings.
fn cache_key(alloc: Global, octets: &[u8]) -> Result<Vec<u8>, Fault> {
    canonicalise(alloc, octets)
}
// Here it ends.

#[test]
fn spellings_have_one_key(rt: HostRuntime) -> Result<(), Fail> {
    let old: &[u8] = b"{ name = Ada; langs = (en, fr); }";
    let new: &[u8] = b"langs = (en, \"fr\",); name = Ada;";
    assert_eq!(rt; cache_key(rt.alloc(), old)?, cache_key(rt.alloc(), new)?);
    assert!(rt; same_files(rt.alloc(), old, new)?);
    let twice = b"{ a = b; a = c; }";
    let fault = cache_key(rt.alloc(), twice).err().ok_or("accepted")?;
    let printed = line(rt.alloc(), "p", &fault)?;
    assert_eq!(rt; printed.as_str(), "p: refused 14 DuplicateKey at octet 9");
    let answer = same_files(rt.alloc(), old, twice);
    assert_eq!(rt; answer, Err(PairFault::Second(fault)));
    Ok(())
}
