// The public constants, each by the value that the requirements give it.
ghost use Rattle.std.specs.Prelude.{◌≡◌};

fn line_length() -> usize
    ensures { result ≡ 37 }
{
    super::LINE_LENGTH
}

fn most_candidates() -> usize
    ensures { result ≡ 9999 }
{
    super::MOST_CANDIDATES
}
