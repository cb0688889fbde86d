// Hexadecimal numbers of sixteen digits.

// The number of a field that is sixteen hexadecimal digits, and none of any other.
pub(crate) fn number(field: &[u8]) -> Option<[u8; 8]> {
    if field.len() != 16 {
        return None;
    }
    let mut number = 0u64;
    for &digit in field {
        number = number << 4 | u64::from(char::from(digit).to_digit(16)?);
    }
    Some(number.to_be_bytes())
}
