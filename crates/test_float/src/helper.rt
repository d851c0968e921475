// The float helpers, in the order in which stdin holds their vectors.
ghost use Rattle.std.specs.Prelude.{◌≤◌};

#[derive(Clone, Copy)]
pub enum Helper {
    Sqrt,
    Narrow,
    Round,
    ToU8,
    ToUsize,
    Abs,
    Signum,
    Widen,
    Max,
    Clamp,
}

impl Helper {
    pub(crate) fn all() -> [Helper; 10] {
        [
            Helper::Sqrt,
            Helper::Narrow,
            Helper::Round,
            Helper::ToU8,
            Helper::ToUsize,
            Helper::Abs,
            Helper::Signum,
            Helper::Widen,
            Helper::Max,
            Helper::Clamp,
        ]
    }

    pub(crate) fn name(self) -> &'static [u8] {
        match self {
            Helper::Sqrt => b"sqrt ",
            Helper::Narrow => b"narrow ",
            Helper::Round => b"round ",
            Helper::ToU8 => b"to_u8 ",
            Helper::ToUsize => b"to_usize ",
            Helper::Abs => b"abs ",
            Helper::Signum => b"signum ",
            Helper::Widen => b"widen ",
            Helper::Max => b"max ",
            Helper::Clamp => b"clamp ",
        }
    }

    // The words of a vector: its arguments and the answer.
    pub(crate) fn words(self) -> usize
        ensures least { 2 ≤ result }
        ensures most { result ≤ 4 }
    {
        match self {
            Helper::Clamp => 4,
            Helper::Max => 3,
            _ => 2,
        }
    }

    // The answer to the arguments from word p on.
    pub(crate) fn answer(self, b: &[u8], p: usize) -> u64
        requires { p ≤ 1000000 }
    {
        let w = vectors::word(b, p);
        let x = vectors::double(w);
        let y = vectors::double(vectors::word(b, p + 1));
        match self {
            Helper::Sqrt => vectors::bits(float::sqrt(x)),
            Helper::Narrow => u64::from(vectors::bits32(float::narrow(x))),
            Helper::Round => vectors::bits(float::round(x)),
            Helper::ToU8 => u64::from(float::to_u8(x)),
            Helper::ToUsize => float::to_usize(x) as u64,
            Helper::Abs => vectors::bits(float::abs(x)),
            Helper::Signum => vectors::bits(float::signum(x)),
            Helper::Widen => {
                let single = vectors::single((w % 0x1_0000_0000) as u32);
                vectors::bits(float::widen(single))
            }
            Helper::Max => vectors::bits(float::max(x, y)),
            Helper::Clamp => {
                let z = vectors::double(vectors::word(b, p + 2));
                vectors::bits(float::clamp(x, y, z))
            }
        }
    }
}
