// That each value of a slice is a number of 64 bits. The check knows it of each value that is read, and of no list of signed numbers as a
// whole: so the loop reads them all, and does nothing else.
ghost use Rattle.format.specs.Pairs.{Each, Fits};

fn look_at(_value: i64) {}

pub fn each_fits(values: &[i64])
    ensures { Each Fits values.now }
{
    for v in values {
        look_at(*v);
    }
}
