//! Worked scripts of processes that copy themselves.

use super::Worked;

pub const SCRIPTS: [Worked; 4] = [
    // a copy has its parent's bytes and rights, and from then on its own; it is charged for all of it
    Worked {
        name: "fork_copies",
        frames: 32,
        script: "\
            0 0 store 40000000 4 7\n0 0 map 40001 ro\n0 0 fork 0\n0 0 fork 3\n0 0 fork 28\n0 0 fork 10\n\
            1 1 load 40000000 4\n1 1 store 40000000 4 9\n0 0 load 40000000 4\n1 1 info 40000\n\
            1 1 info 40001\n1 1 store 40001000 1 1\n1 1 quota\n0 0 quota\n",
        replies: "\
            done\ndone\nrefused BadQuota\nrefused TooSmall\nrefused Quota\nchild 1\nvalue 00000007\ndone\n\
            value 00000007\ninfo 1 1 1 1 1\ninfo 0 1 0 0 1\nfault 40001000 7\nquota 10 4 0\n\
            quota 31 4 10\n",
        malformed: None,
    },
    // a page that was accepted read-only is no page to write to in a copy, and leaves its group there
    Worked {
        name: "fork_of_shared",
        frames: 16,
        script: "\
            0 0 store 40000000 4 1\n0 0 spawn 6\n0 0 offer 40000 1 ro\n1 1 accept 0 40000 40000\n\
            1 1 fork 3\n0 2 protect 40000 rw\n0 0 info 40000\n0 2 info 40000\n0 0 store 40000000 4 5\n\
            0 2 load 40000000 4\n",
        replies: "\
            done\nchild 1\ndone\ndone\nchild 2\nrefused Rights\ninfo 1 1 1 1 2\ninfo 0 0 0 0 1\ndone\n\
            value 00000001\n",
        malformed: None,
    },
    // a copy is told what it is told alone, though its parent stores to the page that was copied
    Worked {
        name: "copy_beside_its_parent",
        frames: 16,
        script: "\
            0 0 spawn 9\n0 1 store 40000ffe 4 4030201\n0 1 fork 5\n0 1 store 40000ffe 4 0\n\
            0 2 load 40000ffe 4\n0 2 info 40001\n0 2 store 40001fff 2 605\n0 2 load 40001ffe 4\n\
            0 2 load 40002fff 2\n0 2 quota\n",
        replies: "\
            child 1\ndone\nchild 2\ndone\nvalue 04030201\ninfo 1 1 1 0 1\ndone\nvalue 00060500\n\
            refused Quota\nquota 5 5 0\n",
        malformed: None,
    },
    // and so with more frames
    Worked {
        name: "copy_beside_its_parent_64",
        frames: 64,
        script: "\
            0 0 spawn 9\n0 1 store 40000ffe 4 4030201\n0 1 fork 5\n0 1 store 40000ffe 4 0\n\
            0 2 load 40000ffe 4\n0 2 info 40001\n0 2 store 40001fff 2 605\n0 2 load 40001ffe 4\n\
            0 2 load 40002fff 2\n0 2 quota\n",
        replies: "\
            child 1\ndone\nchild 2\ndone\nvalue 04030201\ninfo 1 1 1 0 1\ndone\nvalue 00060500\n\
            refused Quota\nquota 5 5 0\n",
        malformed: None,
    },
];
