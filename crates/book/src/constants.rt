// The public constants, each by the value that the requirements give it.
ghost use Rattle.std.specs.Prelude.{◌≡◌};

fn header_length() -> usize
    ensures { result ≡ 16 }
{
    super::HEADER_LENGTH
}

fn record_length() -> usize
    ensures { result ≡ 120 }
{
    super::RECORD_LENGTH
}

fn most_records() -> usize
    ensures { result ≡ 35791393 }
{
    super::MOST_RECORDS
}

fn head_numbers() -> usize
    ensures { result ≡ 3 }
{
    super::HEAD_NUMBERS
}

fn fit_numbers() -> usize
    ensures { result ≡ 13 }
{
    super::FIT_NUMBERS
}
