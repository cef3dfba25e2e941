// Which growths an allocator refuses.
use refusing::Refusing;
use std::alloc::Global;

// Which of four growths an allocator refuses that is to refuse the one of this number, and how many are then left to come.
fn refusals(alloc: Global, number: u64) -> ([bool; 4], u64) {
    let heap = Refusing::new(alloc, number);
    let mut refused = [false; 4];
    for is_refused in &mut refused {
        *is_refused = Vec::<u8, &Refusing<Global>>::with_capacity(&heap, 1).is_err();
    }
    (refused, heap.left())
}

// Checks whether each of three growths is refused where the second one from the first on is to be.
fn refused_later(alloc: Global) -> [bool; 3] {
    let heap = Refusing::new(alloc, 0);
    let mut refused = [false; 3];
    for (at, is_refused) in refused.iter_mut().enumerate() {
        *is_refused = Vec::<u8, &Refusing<Global>>::with_capacity(&heap, 1).is_err();
        if at == 0 {
            heap.refuse(2);
        }
    }
    refused
}

#[test]
fn refuses_that_growth_alone(rt: HostRuntime) {
    assert_eq!(rt; refusals(rt.alloc(), 0), ([false; 4], 0));
    assert_eq!(rt; refusals(rt.alloc(), 1), ([true, false, false, false], 0));
    assert_eq!(rt; refusals(rt.alloc(), 3), ([false, false, true, false], 0));
    assert_eq!(rt; refusals(rt.alloc(), 4), ([false, false, false, true], 0));
    assert_eq!(rt; refusals(rt.alloc(), 6), ([false; 4], 2));
    assert_eq!(rt; refused_later(rt.alloc()), [false, false, true]);
}
