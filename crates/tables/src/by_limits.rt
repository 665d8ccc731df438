// Reading a table by its limits, which rise.
ghost use Rattle.std.specs.Prelude.{◌≡◌, length};
ghost use Rattle.tables.specs.ByLimits.{first_not_below, last_not_above, inside, from_zero};

// The place of the first limit that is not below the number.
pub(crate) fn first_not_below(limits: &[u32], number: u32) -> Option<usize>
    ensures { result ≡ inside (length limits.now) (first_not_below number limits.now) }
{
    limits.iter().position(|limit| number <= *limit)
}

// The place of the last limit that is not above the number: the one before the first that is.
pub(crate) fn last_not_above(limits: &[u32], number: u32) -> Option<usize>
    ensures { result ≡ from_zero (last_not_above number limits.now) }
{
    let above = limits.iter().position(|limit| number < *limit);
    above.unwrap_or(limits.len()).checked_sub(1)
}
