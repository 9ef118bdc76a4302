//! Worked scripts of one process.

use super::Worked;

pub const SCRIPTS: [Worked; 15] = [
    // nothing in, nothing out
    Worked {
        name: "empty",
        frames: 16,
        script: "",
        replies: "",
        malformed: None,
    },
    // a page is mapped, stored to and loaded from; then one refusal and one fault
    Worked {
        name: "map_store_load",
        frames: 16,
        script: "\
            0 0 map 40000 rw\n0 0 store 40000ffc 4 deadbeef\n0 0 load 40000ffc 4\n0 0 map 40000 ro\n\
            0 0 load 3ffffffc 4\n",
        replies: "done\ndone\nvalue deadbeef\nrefused Mapped\nfault 3ffffffc 4\n",
        malformed: None,
    },
    // addresses just outside and just inside the user range
    Worked {
        name: "user_range_edges",
        frames: 16,
        script: "0 0 load 3fffffff 1\n0 0 store f0000000 1 ff\n0 0 load efffffff 1\n0 0 quota\n",
        replies: "fault 3fffffff 4\nfault f0000000 6\nvalue 00000000\nquota 15 3 0\n",
        malformed: None,
    },
    // pages that an access maps, and what the quota is charged for each
    Worked {
        name: "demand_zero",
        frames: 16,
        script: "0 0 load 40000000 4\n0 0 quota\n0 0 load 40001000 4\n0 0 quota\n",
        replies: "value 00000000\nquota 15 3 0\nvalue 00000000\nquota 15 4 0\n",
        malformed: None,
    },
    // a page of another region needs a table too, for which this quota has no room
    Worked {
        name: "table_is_charged",
        frames: 16,
        script: "0 0 spawn 11\n0 0 load 40000000 4\n0 0 load 40400000 4\n0 0 load 40001000 4\n0 0 quota\n",
        replies: "child 1\nvalue 00000000\nrefused Quota\nvalue 00000000\nquota 15 4 11\n",
        malformed: None,
    },
    // what the quota gets back for one page, and for the last of a table
    Worked {
        name: "unmap_returns_table",
        frames: 16,
        script: "\
            0 0 map 40000 rw\n0 0 quota\n0 0 map 40001 rw\n0 0 quota\n0 0 unmap 40000\n0 0 quota\n\
            0 0 unmap 40001\n0 0 quota\n",
        replies: "done\nquota 15 3 0\ndone\nquota 15 4 0\ndone\nquota 15 3 0\ndone\nquota 15 1 0\n",
        malformed: None,
    },
    // a process maps as many pages as its quota has room for, and one more
    Worked {
        name: "one_process_fills_up",
        frames: 16,
        script: "\
            0 0 load 40000000 4\n0 0 load 40001000 4\n0 0 load 40002000 4\n0 0 load 40003000 4\n\
            0 0 load 40004000 4\n0 0 load 40005000 4\n0 0 load 40006000 4\n0 0 load 40007000 4\n\
            0 0 load 40008000 4\n0 0 load 40009000 4\n0 0 load 4000a000 4\n0 0 load 4000b000 4\n\
            0 0 load 4000c000 4\n0 0 load 4000d000 4\n0 0 store 40000000 1 ff\n0 1 load 40000000 4\n\
            0 0 load 40000000 4\n",
        replies: "\
            value 00000000\nvalue 00000000\nvalue 00000000\nvalue 00000000\nvalue 00000000\n\
            value 00000000\nvalue 00000000\nvalue 00000000\nvalue 00000000\nvalue 00000000\n\
            value 00000000\nvalue 00000000\nvalue 00000000\nrefused Quota\ndone\nrefused NoProcess\n\
            value 000000ff\n",
        malformed: None,
    },
    // pages go and come, and each comes as zeros
    Worked {
        name: "frames_come_back",
        frames: 16,
        script: "\
            0 0 map 40000 rw\n0 0 map 40001 rw\n0 0 map 40002 rw\n0 0 map 40003 rw\n\
            0 0 map 40004 rw\n0 0 map 40005 rw\n0 0 map 40006 rw\n0 0 map 40007 rw\n\
            0 0 map 40008 rw\n0 0 map 40009 rw\n0 0 map 4000a rw\n0 0 map 4000b rw\n\
            0 0 map 4000c rw\n0 0 store 4000c000 4 5\n0 0 map 4000d rw\n0 0 unmap 4000c\n\
            0 0 map 40400 rw\n0 0 map 4000d rw\n0 0 load 4000d000 4\n0 0 unmap 4000c\n",
        replies: "\
            done\ndone\ndone\ndone\ndone\ndone\ndone\ndone\ndone\ndone\ndone\ndone\ndone\ndone\n\
            refused Quota\ndone\nrefused Quota\ndone\nvalue 00000000\nrefused NotMapped\n",
        malformed: None,
    },
    // a page without the right to write that nobody stored to, and that gets the right later
    Worked {
        name: "lazy_page",
        frames: 16,
        script: "\
            0 0 map 40000 ro\n0 0 load 40000000 4\n0 0 store 40000000 4 1\n0 0 protect 40000 rw\n\
            0 0 store 40000000 4 1\n0 0 info 40000\n",
        replies: "done\nvalue 00000000\nfault 40000000 7\ndone\ndone\ninfo 1 1 1 1 1\n",
        malformed: None,
    },
    // the flags of a page before an access, after a load and after a store
    Worked {
        name: "flags",
        frames: 16,
        script: "\
            0 0 map 40000 rw\n0 0 info 40000\n0 0 load 40000000 1\n0 0 info 40000\n\
            0 0 store 40000000 1 1\n0 0 info 40000\n",
        replies: "done\ninfo 1 1 0 0 1\nvalue 00000000\ninfo 1 1 1 0 1\ndone\ninfo 1 1 1 1 1\n",
        malformed: None,
    },
    // the second line names no call: the first has its reply, the third has none
    Worked {
        name: "malformed_line",
        frames: 16,
        script: "0 0 quota\n0 0 lode 40000000 4\n0 0 quota\n",
        replies: "quota 15 1 0\n",
        malformed: Some(2),
    },
    // a store over two pages, whose bytes lie on both sides
    Worked {
        name: "across_two_pages",
        frames: 16,
        script: "\
            0 0 store 40000ffe 4 11223344\n0 0 load 40000ffe 4\n0 0 load 40001000 2\n0 0 quota\n",
        replies: "done\nvalue 11223344\nvalue 00001122\nquota 15 4 0\n",
        malformed: None,
    },
    // an access over two pages maps both, or neither
    Worked {
        name: "both_pages_or_neither",
        frames: 16,
        script: "\
            0 0 spawn 12\n0 0 load 40000fff 2\n0 0 quota\n0 0 load 40000ffe 2\n0 0 quota\n",
        replies: "child 1\nrefused Quota\nquota 15 1 12\nvalue 00000000\nquota 15 3 12\n",
        malformed: None,
    },
    // a fault is at the first byte that is outside, or in a page without the right; no byte is written then
    Worked {
        name: "faults_at_the_first_byte",
        frames: 16,
        script: "\
            0 0 store effffffe 4 1\n0 0 load ffffffff 4\n0 0 load 3fffffff 2\n0 0 map 40000 rw\n\
            0 0 map 40001 ro\n0 0 store 40000fff 2 ffff\n0 0 load 40000fff 1\n0 0 info 40000\n",
        replies: "\
            fault f0000000 6\nfault ffffffff 4\nfault 3fffffff 4\ndone\ndone\nfault 40001000 7\n\
            value 00000000\ninfo 1 1 1 0 1\n",
        malformed: None,
    },
    // two pages in two regions
    Worked {
        name: "across_two_regions",
        frames: 16,
        script: "0 0 load 403fffff 2\n0 0 quota\n",
        replies: "value 00000000\nquota 15 5 0\n",
        malformed: None,
    },
];
