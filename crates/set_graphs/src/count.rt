ghost use Rattle.std.specs.Prelude.{◌≡◌, ◌<◌, ◌≤◌, ◌+◌, ◌^◌, ℕ, length, slice_index};
ghost use Rattle.set_graphs.specs.Sets.{exception_count};
ghost use Rattle.set_graphs.specs.inner.Counts.{AreNextCounts, CountSets};

/// The sizes of sets that are counted: from none to the most members that a set may have.
const SIZES: usize = 8;

/// How many sets of each size there are with one primitive more: as many as without it, and those of one member less.
fn add_primitive(counts: &mut [u64])
    requires { (size : ℕ) → slice_index counts.old size < 2 ^ 63 }
    ensures { AreNextCounts counts.old counts.new }
{
    let mut fewer = 0;
    for count in counts.iter_mut() {
        let before = *count;
        *count += fewer;
        fewer = before;
    }
}

/// How many exceptions the graph of all sets of at most `most` of the primitives has, universal counted.
pub fn count_exceptions(primitives: u32, most: u32) -> u64
    requires primitives_fit { primitives < 128 }
    requires most_fits { most < 8 }
    ensures { result ≡ exception_count primitives most }
{
    let mut counts = [0; SIZES];
    counts[0] = 1;
    for _primitive in 0..primitives {
        add_primitive(&mut counts);
    }
    let mut count = 1;
    for size in 0..most {
        count += counts[size as usize + 1];
    }
    count
}
