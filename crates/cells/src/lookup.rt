// A row read at any index.
ghost use Rattle.std.specs.Prelude.{◌≡◌, slice_index_or};

// The element at an index, or what is past the end.
pub fn at<T: Copy>(row: &[T], i: usize, past: T) -> T
    ensures { result ≡ slice_index_or row.now i past }
{
    row.get(i).copied().unwrap_or(past)
}
