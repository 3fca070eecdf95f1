//! The groups of a configuration and its time to live, which the program doesn't print.

use crate::same::same;
use trdp_dataset::NodeConfig;

/// A file that names neither, and one that has the last group, the first one and the longest time
/// to live.
static FILES: [(&str, &[u32], u8); 2] = [
    ("node = { address = '10.0.0.1' }\nslot = [{}]", &[], 64),
    (
        "node = { address = '10.0.0.1', groups = ['239.255.255.255', '224.0.0.0'], ttl = 255 }\n\
         slot = [{}]",
        &[0xefff_ffff, 0xe000_0000],
        255,
    ),
];

#[test]
fn reads_groups(rt: HostRuntime) {
    for (file, groups, ttl) in &FILES {
        match NodeConfig::from_toml(rt.alloc(), file.as_bytes()) {
            Ok(config) => {
                same(&rt, *file, config.groups(), *groups);
                same(&rt, *file, config.ttl(), *ttl);
            }
            Err(fault) => same(&rt, *file, Some(fault), None),
        }
    }
}
