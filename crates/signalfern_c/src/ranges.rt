// The first value in a range, in a column of edition 3, for C (document 02, [11]).
ghost use Rattle.std.specs.Prelude.{◌≡◌};
ghost use Rattle.format.specs.FirstBetween.{first_between, first_between_in};
ghost use Rattle.format.specs.BetweenFrom.{first_between_from, first_between_from_in};
ghost use Rattle.answers.specs.Words.{opened_in, between_words};

use boundary::ranges;

#[unsafe(no_mangle)]
pub extern "C" fn signalfern_first_between_to(
    bytes: &[u8],
    low: i64,
    high: i64,
    between: &mut [u64; 3],
)
    ensures { between.new ≡ between_words (first_between bytes.now low high) }
{
    let told = signalfern::first_between(bytes, low, high);
    ranges::put_between(between, told);
}

#[unsafe(no_mangle)]
pub extern "C" fn signalfern_first_between_in_to(
    column: &[u64; 12],
    bytes: &[u8],
    low: i64,
    high: i64,
    between: &mut [u64; 3],
)
    ensures { between.new ≡ between_words (first_between_in bytes.now (opened_in column.now) low high) }
{
    let told = signalfern::first_between_in(boundary::column_in(column), bytes, low, high);
    ranges::put_between(between, told);
}

#[unsafe(no_mangle)]
pub extern "C" fn signalfern_first_between_from_to(
    bytes: &[u8],
    from: u64,
    low: i64,
    high: i64,
    between: &mut [u64; 3],
)
    ensures { between.new ≡ between_words (first_between_from bytes.now from low high) }
{
    let told = signalfern::first_between_from(bytes, from, low, high);
    ranges::put_between(between, told);
}

#[unsafe(no_mangle)]
pub extern "C" fn signalfern_first_between_from_in_to(
    column: &[u64; 12],
    bytes: &[u8],
    from: u64,
    low: i64,
    high: i64,
    between: &mut [u64; 3],
)
    ensures { between.new ≡ between_words (first_between_from_in bytes.now (opened_in column.now) from low high) }
{
    let told = signalfern::first_between_from_in(
        boundary::column_in(column),
        bytes,
        from,
        low,
        high,
    );
    ranges::put_between(between, told);
}
