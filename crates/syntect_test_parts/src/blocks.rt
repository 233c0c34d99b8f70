//! Elements in blocks, where there is memory for them.
use crate::found::equal;
use syntect_blocks::blocks::Blocks;

#[test]
fn elements_are_put_in(rt: HostRuntime) {
    let mut blocks = Blocks::new(rt.alloc());
    blocks.insert(0, 7u32).expect(&rt, "memory");
    blocks.insert(0, 5u32).expect(&rt, "memory");
    blocks.insert(1, 6u32).expect(&rt, "memory");
    equal(&rt, blocks.len(), 3);
    equal(&rt, *blocks.get(0), 5);
    equal(&rt, *blocks.get(1), 6);
    equal(&rt, *blocks.get(2), 7);
}
