// Groupings: a label for each part, the smallest part of its group. Labels are a slice, as users lend them, beside the numbers that are asked of.
ghost use Rattle.std.specs.Prelude.{◌≡◌, ◌<◌, ◌↔◌, length, IsTrue};
ghost use Rattle.job.specs.Grouping.{Grouping, label, together, is_label, is_grouping};

// The label of a part; one that is not there reads as 0, as the definition has it. (An `Option` would put that 0 at each call.)
pub fn label(labels: &[usize], part: usize) -> usize
    ensures { result ≡ label labels.now part }
{
    labels.get(part).copied().unwrap_or(0)
}

// Whether two parts share a group.
pub fn share_group(labels: &[usize], i: usize, j: usize) -> bool
    ensures { result ≡ together labels.now i j }
{
    label(labels, i) == label(labels, j)
}

// The same of two parts that are known to have labels: no test is made.
pub(crate) fn do_share(labels: &[usize], i: usize, j: usize) -> bool
    requires { (i < length labels.now) × (j < length labels.now) }
    ensures { result ≡ together labels.now i j }
{
    labels[i] == labels[j]
}

// Whether the label of a part is no part above it, and is its own label.
fn is_label(labels: &[usize], part: usize) -> bool
    ensures { result ≡ is_label labels.now part }
{
    let own = label(labels, part);
    own <= part && label(labels, own) == own
}

// Whether the labels are a grouping of as many parts.
pub fn is_grouping(labels: &[usize]) -> bool
    ensures value { result ≡ is_grouping (length labels.now) labels.now }
    ensures means { IsTrue result ↔ Grouping (length labels.now) labels.now }
{
    (0..labels.len()).all(|part| is_label(labels, part))
}
