//! Masks of keys, key k at bit k.

ghost use Rattle.std.specs.Prelude.{◌≡◌, ◌<◌, ◌^◌};
ghost use Rattle.chip_machine.specs.Step as spec;

/// Whether a key is down.
pub(crate) fn is_down(keys: u16, key: u32) -> bool
    requires { key < 16 }
    ensures { result ≡ spec.is_key_down keys key }
{
    keys >> key & 1 == 1
}

/// Returns the mask of one key.
pub(crate) fn alone(key: u32) -> u16
    requires { key < 16 }
    ensures { result ≡ 2 ^ key }
{
    1 << key
}
