// The choice of a named field by its numbers.
ghost use Rattle.std.specs.Prelude.{◌≡◌, IfOk};

use field::Field;
use fields::{FieldTask, NamedField, UnknownField, with_field};
use std::test::Fail;

// The characteristic, the degree and the limit.
#[derive(Clone, Copy)]
struct Numbers;

impl FieldTask for Numbers {
    type Out = (u32, u32, u32);

    ghost run_gives = { λ p e _ numbers. (numbers.0 ≡ p) × (numbers.1 ≡ e) };

    fn run<F: Field>(self) -> (u32, u32, u32) {
        (F::CHARACTERISTIC, F::DEGREE, F::LIMIT)
    }
}

// The numbers of the field that p and e choose: it is theirs.
fn numbers_of(p: u32, e: u32) -> Result<(u32, u32, u32), UnknownField>
    ensures characteristic { IfOk result (λ numbers. numbers.0 ≡ p) }
    ensures degree { IfOk result (λ numbers. numbers.1 ≡ e) }
{
    with_field(p, e, Numbers)
}

#[test]
fn each_named_field_is_chosen(rt: HostRuntime) -> Result<(), Fail> {
    let expected = [
        (65537, 1, 256, 3),
        (65537, 2, 256, 3),
        (2147483647, 1, 46340, 2147483646),
        (2147483647, 2, 46340, 2147483646),
    ];
    for (field, (p, e, limit, non_square)) in NamedField::ALL.into_iter().zip(expected) {
        assert_eq!(rt; (field.characteristic(), field.degree()), (p, e));
        assert_eq!(rt; (field.limit(), field.non_square()), (limit, non_square));
        assert!(rt; NamedField::of_numbers(p, e) == Some(field));
        assert!(rt; field.run(Numbers) == (p, e, limit));
        assert!(rt; numbers_of(p, e) == Ok((p, e, limit)));
    }
    Ok(())
}

#[test]
fn no_other_numbers_choose_a_field(rt: HostRuntime) -> Result<(), Fail> {
    for (p, e) in [
        (0, 0),
        (2, 1),
        (65536, 1),
        (65537, 0),
        (65537, 3),
        (2147483646, 1),
        (2147483647, 0),
        (2147483647, 4294967295),
        (4294967295, 2),
    ] {
        assert!(rt; numbers_of(p, e) == Err(UnknownField));
    }
    Ok(())
}
