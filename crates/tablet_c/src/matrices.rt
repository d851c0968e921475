// Matrices, four points and their homography.
ghost use Rattle.std.specs.Prelude.{[], ◌∷◌};
ghost use Rattle.homography.specs.Equations as dlt;
ghost use Rattle.homography.specs.Homography as mat;
ghost use Rattle.tablet.specs.Slices.{Answer};
ghost use Rattle.fit.specs.Numbers.{matrix_of, matrix_numbers};
ghost use Rattle.tablet.specs.Layouts.{quad_of, point_numbers};
ghost use Rattle.tablet.specs.Tests.{product_tests, move_tests, inverse_tests, points_tests, error_tests};

// The matrix product a b.
#[unsafe(no_mangle)]
pub extern "C" fn tablet_mat3_mul(a: &[f64], b: &[f64], res: &mut [f64]) -> u32
    ensures { Answer (product_tests a.now b.now res.old) (matrix_numbers
        (mat.mat3_mul (matrix_of a.now).m (matrix_of b.now).m)) res.old result
        res.new }
{
    tablet::tablet_mat3_mul(a, b, res)
}

// Where a matrix takes a point.
#[unsafe(no_mangle)]
pub extern "C" fn tablet_apply(matrix: &[f64], x: f64, y: f64, point: &mut [f64]) -> u32
    ensures { Answer (move_tests 9 matrix.now point.old) (point_numbers
        (mat.apply (matrix_of matrix.now) (record { x = x; y = y }))) point.old result
        point.new }
{
    tablet::tablet_apply(matrix, x, y, point)
}

// The inverse of a matrix.
#[unsafe(no_mangle)]
pub extern "C" fn tablet_inverse(matrix: &[f64], res: &mut [f64]) -> u32
    ensures { Answer (inverse_tests matrix.now res.old) (matrix_numbers
        (mat.inverse (matrix_of matrix.now)).h.m) res.old result res.new }
{
    tablet::tablet_inverse(matrix, res)
}

// The homography that takes each point of source to that of target.
#[unsafe(no_mangle)]
pub extern "C" fn tablet_from_points(source: &[f64], target: &[f64], matrix: &mut [f64]) -> u32
    ensures { Answer (points_tests source.now target.now matrix.old)
        (matrix_numbers (dlt.from_points (quad_of source.now) (quad_of target.now)).h.m)
        matrix.old result matrix.new }
{
    tablet::tablet_from_points(source, target, matrix)
}

// The root of the mean squared distance of four points from four others.
#[unsafe(no_mangle)]
pub extern "C" fn tablet_rms_error(a: &[f64], b: &[f64], res: &mut [f64]) -> u32
    ensures { Answer (error_tests a.now b.now res.old) (mat.rms_error
        (quad_of a.now) (quad_of b.now) ∷ []) res.old result res.new }
{
    tablet::tablet_rms_error(a, b, res)
}
