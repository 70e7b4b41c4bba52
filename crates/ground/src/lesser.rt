// The lesser of two numbers.
ghost use Rattle.ground.specs.Lesser.{Least};

pub fn least(a: usize, b: usize) -> usize
    ensures { Least a b result }
{
    a.min(b)
}
