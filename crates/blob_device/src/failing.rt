// Which calls a test wants to fail: those with the listed numbers, and those from a fuse on.
ghost use Rattle.std.specs.Prelude.{◌≡◌, ◌||◌};
ghost use Rattle.blob_device.specs.Failing.{from_fuse, is_listed};

/// Whether the call with this number is in the list.
pub fn is_in_list(failing: &[u64], number: u64) -> bool
    ensures { result ≡ is_listed failing.now number }
{
    failing.iter().any(|n| *n == number)
}

/// Whether the call with this number is in the list, or stands at or behind the fuse.
pub fn is_failing(failing: &[u64], fuse: Option<u64>, number: u64) -> bool
    ensures { result ≡ (is_listed failing.now number || from_fuse fuse number) }
{
    if is_in_list(failing, number) {
        return true;
    }
    match fuse {
        Some(first) => first <= number,
        None => false,
    }
}
