// Where two lists differ: at how many places, and which is the first.
ghost use Rattle.std.specs.Prelude.{◌≡◌, length};

// The first place where two lists differ, with their elements there, and at how many places they do.
#[derive(Clone, Copy)]
pub struct Unlike<T> {
    pub count: u64,
    pub first: usize,
    pub left: T,
    pub right: T,
}

// Compares two lists: nothing where they are the same.
pub fn compare<T: PartialEq + Copy>(a: &[T], b: &[T]) -> Option<Unlike<T>>
    requires { length a.now ≡ length b.now }
{
    let mut unlike: Option<Unlike<T>> = None;
    for (first, (left, right)) in a.iter().zip(b).enumerate() {
        if left != right {
            unlike = Some(match unlike {
                None => Unlike {
                    count: 1,
                    first,
                    left: *left,
                    right: *right,
                },
                Some(seen) => Unlike {
                    count: seen.count.saturating_add(1),
                    ..seen
                },
            });
        }
    }
    unlike
}
