//! Puts that repeat until all bytes are taken.
ghost use Rattle.std.specs.Prelude.{◌≡◌, ◌<◌, length, take, IfErr, OnOk};
ghost use Rattle.std.specs.Io.KnownBytes.{Appends};
ghost use Rattle.plist_devices.specs.Count.{one_more};
ghost use Rattle.plist_devices.specs.Sink.{IsLongest};

use crate::Sink;

/// Puts all of `octets`, calling [`Sink::put`] until none are left.
///
/// # Errors
///
/// If a put fails, returns how many bytes the sink took before it, and puts no more.
pub fn put_all<W: Sink>(octets: &[u8], out: &mut W) -> Result<(), usize>
    ensures all { OnOk result (Appends (W.taken out.old) (W.taken out.new) octets.now
        × (W.failures out.new ≡ W.failures out.old)) }
    ensures front { IfErr result (λ taken. (taken < length octets.now)
        × Appends (W.taken out.old) (W.taken out.new) (take taken octets.now)
        × (W.failures out.new ≡ one_more (W.failures out.old))) }
    ensures same { W.device out.new ≡ W.device out.old }
    ensures longest { IsLongest (W.longest out.old) (W.longest out.new) (length octets.now) }
{
    let mut taken = 0;
    while taken < octets.len() {
        match out.put(&octets[taken..]) {
            Ok(more) => taken += more,
            Err(_) => return Err(taken),
        }
    }
    Ok(())
}
