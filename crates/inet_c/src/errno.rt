//! The numbers of errno(3) that this crate answers, as Linux has them on x86-64 and arm64.

/// A handle holds nothing.
pub const EBADF: i32 = 9;
/// Others changed what a lookup went through, at each of its passes.
pub const EAGAIN: i32 = 11;
/// Memory ran out.
pub const ENOMEM: i32 = 12;
/// A handle holds something already.
pub const EBUSY: i32 = 16;
/// An argument is none that the call may have.
pub const EINVAL: i32 = 22;
/// As many were handed out as there may be.
pub const EUSERS: i32 = 87;
