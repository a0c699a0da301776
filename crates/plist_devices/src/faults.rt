//! The error type of devices.
use thiserror::Error;

/// Reports that a device failed: nothing was transferred, and the device counted one more failure.
#[derive(Clone, Copy, Debug, PartialEq, Eq, Error)]
#[error("the device failed")]
pub struct DeviceFault;
