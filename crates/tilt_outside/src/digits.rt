// Numbers in names.

/// Whether the name is a number: digits, at least one.
pub(crate) fn is_number(name: &str) -> bool {
    !name.is_empty() && name.bytes().all(|byte| byte.is_ascii_digit())
}
