// Rectangles over a patch list.
ghost use Rattle.windows.specs.Promises.{Windowing};

// Which of the first n patches k rectangles touch, and which is nearest to each.
#[unsafe(no_mangle)]
pub extern "C" fn tablet_patch_windows(
    patches: &[u64],
    n: usize,
    windows: &[u64],
    k: usize,
    answers: &mut [u64],
) -> u32
    ensures { Windowing patches.now n windows.now k answers.old
        answers.new result }
{
    tablet::tablet_patch_windows(patches, n, windows, k, answers)
}
