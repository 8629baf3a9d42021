// The recorded calls, each computed again.
use crate::function::Function;
use crate::numbers::{Answer, MOST, Unfit, bytes, element, limbs, list, lists, tower_byte};
use answers::number;
use frobenius::LinearizedPoly8b;
use matrix::ByteMatrix;
use rijndael::Rijndael8b;
use tower::BinaryField8;
use words::Limbs;

fn polynomial(coefficients: u64) -> LinearizedPoly8b {
    LinearizedPoly8b::new(coefficients.to_le_bytes().map(Rijndael8b::from_byte))
}

// A function, its arguments and the recorded answer.
#[derive(Clone, Copy)]
pub(crate) struct Call<'a> {
    pub function: Function,
    pub arguments: &'a [u64],
    pub answers: &'a [u64],
}

impl Call<'_> {
    // Whether the function answers as it is recorded.
    pub(crate) fn agrees(self) -> Result<bool, Unfit> {
        let Call {
            function,
            arguments,
            answers,
        } = self;
        match (function, arguments) {
            (Function::PolyDot64, _) => {
                let (a, b) = lists(arguments)?;
                gf64::poly_dot_64(a, b).is(answers)
            }
            (Function::PolyDot128, _) => {
                let (a, b) = lists(arguments)?;
                gf128::poly_dot_128(a, b).is(answers)
            }
            (Function::MulSlice | Function::InvertSlice | Function::ApplySlice, _) => {
                self.sweep_agrees()
            }
            (_, &[x]) => self.agrees_at_one(x),
            (_, &[x, y]) => self.agrees_at_two(x, y),
            (_, &[a, b, c, d]) => self.agrees_at_limbs(limbs(a, b), limbs(c, d)),
            _ => Err(Unfit),
        }
    }

    fn agrees_at_one(self, x: u64) -> Result<bool, Unfit> {
        let answers = self.answers;
        match self.function {
            Function::SpreadBits64 => words::spread_bits_64(x).is(answers),
            Function::CompactEven => words::compact_even(x).is(answers),
            Function::PolySquare64 => gf64::poly_square_64(x).is(answers),
            Function::PolySqrt64 => gf64::poly_sqrt_64(x).is(answers),
            Function::PolyInverse64 => gf64::poly_inverse_64(x).is(answers),
            Function::TryInverse64 => gf64::try_inverse_64(x).is(answers),
            Function::RijndaelInvertOrZero => element(x)?.invert_or_zero().is(answers),
            Function::RijndaelSqrt => element(x)?.sqrt().is(answers),
            Function::RijndaelTryInverse => element(x)?.try_inverse().is(answers),
            Function::RijndaelInterpolationNode => {
                Rijndael8b::interpolation_node(x as usize).is(answers)
            }
            Function::TowerToRijndael => Rijndael8b::from(tower_byte(x)?).is(answers),
            Function::TowerFromRijndael => BinaryField8::from(element(x)?).is(answers),
            Function::MatrixFromImages => ByteMatrix::from_images(x.to_le_bytes()).is(answers),
            Function::MatrixImages => {
                u64::from_le_bytes(ByteMatrix::from_quadword(x).images()).is(answers)
            }
            Function::FrobeniusMap => frobenius::frobenius_map(x as usize).is(answers),
            Function::LinearizedToMatrix => polynomial(x).to_matrix().is(answers),
            Function::LinearizedFromMatrix => {
                let found = LinearizedPoly8b::from_matrix(ByteMatrix::from_quadword(x));
                u64::from_le_bytes(found.coefficients().map(Rijndael8b::to_byte)).is(answers)
            }
            _ => Err(Unfit),
        }
    }

    fn agrees_at_two(self, x: u64, y: u64) -> Result<bool, Unfit> {
        let answers = self.answers;
        match self.function {
            Function::Bmul64 => clmul::bmul64(x, y).is(answers),
            Function::Clmul64x64 => clmul::clmul_64x64(x, y).is(answers),
            Function::Reduce64 => reduce::reduce_64(limbs(x, y)).is(answers),
            Function::PolySquare128 => gf128::poly_square_128(limbs(x, y)).is(answers),
            Function::PolyMul64 => gf64::poly_mul_64(x, y).is(answers),
            Function::Div64 => gf64::div_64(x, y).is(answers),
            Function::RijndaelMul => (element(x)? * element(y)?).is(answers),
            Function::RijndaelExpPowerOf2 => element(x)?.exp_power_of_2(y as usize).is(answers),
            Function::RijndaelDiv => element(x)?.div(element(y)?).is(answers),
            Function::TowerMul => (tower_byte(x)? * tower_byte(y)?).is(answers),
            Function::MatrixApply => {
                ByteMatrix::from_quadword(x)
                    .apply(u8::try_from(y)?)
                    .is(answers)
            }
            Function::MatrixCompose => {
                let (second, first) = (ByteMatrix::from_quadword(x), ByteMatrix::from_quadword(y));
                second.compose(first).is(answers)
            }
            Function::LinearizedEval => polynomial(x).eval(element(y)?).is(answers),
            _ => Err(Unfit),
        }
    }

    fn agrees_at_limbs(self, x: Limbs, y: Limbs) -> Result<bool, Unfit> {
        let answers = self.answers;
        match self.function {
            Function::Reduce128 => reduce::reduce_128(x, y).is(answers),
            Function::PolyMul128 => gf128::poly_mul_128(x, y).is(answers),
            _ => Err(Unfit),
        }
    }

    // Whether a sweep accepts with 0 and every byte, or refuses with its number and every byte as it stood.
    fn sweep_agrees(self) -> Result<bool, Unfit> {
        let mut recorded = [0; MOST];
        let mut room = [0; MOST];
        let answers = bytes(self.answers, &mut recorded)?;
        let (number, swept) = self.swept(&mut room)?;
        Ok(match answers {
            [first, rest @ ..] => u32::from(*first) == number && &*rest == swept,
            [] => false,
        })
    }

    // The number that a sweep answers, and what it leaves, which stands in `room`.
    fn swept<'a>(self, room: &'a mut [u8; MOST]) -> Result<(u32, &'a [u8]), Unfit> {
        match (self.function, self.arguments) {
            (Function::MulSlice, arguments) => {
                let (d, s) = lists(arguments)?;
                let mut other = [0; MOST];
                let (d, s) = (bytes(d, room)?, bytes(s, &mut other)?);
                let done = sweeps::mul_slice(d, s);
                Ok((number(done), d))
            }
            (Function::InvertSlice, arguments) => {
                let d = bytes(list(arguments)?, room)?;
                sweeps::invert_slice(d);
                Ok((0, d))
            }
            (Function::ApplySlice, [rows, arguments @ ..]) => {
                let d = bytes(list(arguments)?, room)?;
                ByteMatrix::from_quadword(*rows).apply_slice(d);
                Ok((0, d))
            }
            _ => Err(Unfit),
        }
    }

    // Whether there are no arguments, and the answers begin with a list that would end behind all that a line may have.
    // Kept: such a line fits no call, and is shown as one that differs: what is printed may not change.
    pub(crate) fn overruns(self) -> bool {
        let ([], [length, rest @ ..]) = (self.arguments, self.answers) else {
            return false;
        };
        let is_long = *length > 254 || rest.get(*length as usize).is_some_and(|next| *next > 255);
        match self.function {
            Function::PolyDot64 | Function::PolyDot128 => is_long,
            Function::MulSlice => is_long && self.answers.iter().all(|x| *x < 256),
            _ => false,
        }
    }
}
