// Numbers in a line: digits behind a space or an equals sign, counted from the end of the line.

// What a number is cut to, so that one more digit never overflows.
const CUT: usize = 1000000000000;

// The number at the front of a text: its digits as far as they go, or 0. By hand, since `parse` refuses what is too long.
pub fn decimal(text: &[u8]) -> usize {
    let digits = text.iter().take_while(|c| c.is_ascii_digit());
    digits.fold(0, |n, c| n % CUT * 10 + (c % 16) as usize)
}

// A line's last number, or as many before it; 0 where there is none. What a line begins with is never one.
pub fn number(line: &[u8], back: usize) -> usize {
    let mut words = line.rsplit(|&c| c == b' ' || c == b'=');
    words.next_back();
    let mut numbers = words.filter(|word| word.first().is_some_and(|c| c.is_ascii_digit()));
    numbers.nth(back).map_or(0, decimal)
}
