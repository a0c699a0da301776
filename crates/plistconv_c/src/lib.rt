//! The C library: the functions of `plist_forms` on buffers of the caller.
//!
//! Each call returns 0 or the number of a refusal, which it also describes in a [`Refused`]. Calls
//! share no state. `include/plistconv.h` documents them for C.
#![tactic(auto)]

mod checking;
mod files;
mod giving;
mod inputs;
mod keyed_hasher;
mod lines;
mod linting;
mod openstep;
mod prints;
mod refusals;
mod version;

pub use checking::{Finding, plistconv_check};
pub use files::{plistconv_canonical, plistconv_same};
pub use lines::plistconv_line;
pub use linting::plistconv_lint;
pub use openstep::plistconv_text;
pub use prints::plistconv_print;
pub use refusals::Refused;
pub use version::plistconv_version;
