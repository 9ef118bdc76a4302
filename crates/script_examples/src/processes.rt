//! Worked scripts of several processes and their quotas.

use super::Worked;

pub const SCRIPTS: [Worked; 7] = [
    // an access for whose page the quota has no room
    Worked {
        name: "quota_refuses",
        frames: 16,
        script: "0 0 spawn 12\n0 0 load 40000000 4\n0 0 load 40001000 4\n0 0 quota\n",
        replies: "child 1\nvalue 00000000\nrefused Quota\nquota 15 3 12\n",
        malformed: None,
    },
    // a child's quota after its exit
    Worked {
        name: "exit_returns_quota",
        frames: 16,
        script: "\
            0 0 spawn 5\n0 1 store 40000000 4 5ec0de\n0 1 exit\n0 0 quota\n0 0 spawn 5\n\
            0 1 load 40000000 4\n",
        replies: "child 1\ndone\ndone\nquota 15 1 0\nchild 1\nvalue 00000000\n",
        malformed: None,
    },
    // as many children as there are numbers, and the spawns that are refused
    Worked {
        name: "process_table_full",
        frames: 128,
        script: "\
            0 0 spawn 1\n0 0 spawn 1\n0 0 spawn 1\n0 0 spawn 1\n0 0 spawn 1\n0 0 spawn 1\n\
            0 0 spawn 1\n0 0 spawn 1\n0 0 spawn 1\n0 0 spawn 1\n0 0 spawn 1\n0 0 spawn 1\n\
            0 0 spawn 1\n0 0 spawn 1\n0 0 spawn 1\n0 0 spawn 1\n0 0 spawn 1\n0 0 spawn 1\n\
            0 0 spawn 1\n0 0 spawn 1\n0 0 spawn 1\n0 0 spawn 1\n0 0 spawn 1\n0 0 spawn 1\n\
            0 0 spawn 1\n0 0 spawn 1\n0 0 spawn 1\n0 0 spawn 1\n0 0 spawn 1\n0 0 spawn 1\n\
            0 0 spawn 1\n0 0 spawn 1\n0 0 spawn 1\n0 0 spawn 1\n0 0 spawn 1\n0 0 spawn 1\n\
            0 0 spawn 1\n0 0 spawn 1\n0 0 spawn 1\n0 0 spawn 1\n0 0 spawn 1\n0 0 spawn 1\n\
            0 0 spawn 1\n0 0 spawn 1\n0 0 spawn 1\n0 0 spawn 1\n0 0 spawn 1\n0 0 spawn 1\n\
            0 0 spawn 1\n0 0 spawn 1\n0 0 spawn 1\n0 0 spawn 1\n0 0 spawn 1\n0 0 spawn 1\n\
            0 0 spawn 1\n0 0 spawn 1\n0 0 spawn 1\n0 0 spawn 1\n0 0 spawn 1\n0 0 spawn 1\n\
            0 0 spawn 1\n0 0 spawn 1\n0 0 spawn 1\n0 0 spawn 1\n0 0 spawn 0\n0 1 load 40000000 4\n\
            0 0 exit\n0 5 spawn 1\n",
        replies: "\
            child 1\nchild 2\nchild 3\nchild 4\nchild 5\nchild 6\nchild 7\nchild 8\nchild 9\n\
            child 10\nchild 11\nchild 12\nchild 13\nchild 14\nchild 15\nchild 16\nchild 17\n\
            child 18\nchild 19\nchild 20\nchild 21\nchild 22\nchild 23\nchild 24\nchild 25\n\
            child 26\nchild 27\nchild 28\nchild 29\nchild 30\nchild 31\nchild 32\nchild 33\n\
            child 34\nchild 35\nchild 36\nchild 37\nchild 38\nchild 39\nchild 40\nchild 41\n\
            child 42\nchild 43\nchild 44\nchild 45\nchild 46\nchild 47\nchild 48\nchild 49\n\
            child 50\nchild 51\nchild 52\nchild 53\nchild 54\nchild 55\nchild 56\nchild 57\n\
            child 58\nchild 59\nchild 60\nchild 61\nchild 62\nchild 63\nrefused TableFull\n\
            refused BadQuota\nrefused Quota\nrefused RootExit\nrefused TableFull\n",
        malformed: None,
    },
    // a child with a quota of its own, and nobody beside it
    Worked {
        name: "tenant_alone",
        frames: 16,
        script: "\
            0 0 spawn 5\n0 1 load 40000000 4\n0 1 store 40001000 4 2\n0 1 load 40002000 4\n\
            0 1 load 40003000 4\n0 1 unmap 40000\n0 1 load 40003000 4\n0 1 quota\n",
        replies: "\
            child 1\nvalue 00000000\ndone\nvalue 00000000\nrefused Quota\ndone\nvalue 00000000\n\
            quota 5 5 0\n",
        malformed: None,
    },
    // the same child beside one that fills its quota, exits and comes again
    Worked {
        name: "tenant_beside_others",
        frames: 16,
        script: "\
            0 0 spawn 5\n0 0 spawn 9\n0 2 store 40000000 1 aa\n0 2 store 40001000 1 aa\n\
            0 2 store 40002000 1 aa\n0 2 store 40003000 1 aa\n0 2 store 40004000 1 aa\n\
            0 2 store 40005000 1 aa\n0 2 store 40006000 1 aa\n0 2 store 40007000 1 aa\n\
            0 1 load 40000000 4\n0 1 store 40001000 4 2\n0 1 load 40002000 4\n0 2 exit\n\
            0 1 load 40003000 4\n0 1 unmap 40000\n0 0 spawn 9\n0 2 store 40000000 1 aa\n\
            0 2 store 40001000 1 aa\n0 2 store 40002000 1 aa\n0 2 store 40003000 1 aa\n\
            0 2 store 40004000 1 aa\n0 2 store 40005000 1 aa\n0 2 store 40006000 1 aa\n\
            0 2 store 40007000 1 aa\n0 1 load 40003000 4\n0 1 quota\n",
        replies: "\
            child 1\nchild 2\ndone\ndone\ndone\ndone\ndone\ndone\ndone\nrefused Quota\n\
            value 00000000\ndone\nvalue 00000000\ndone\nrefused Quota\ndone\nchild 2\ndone\ndone\n\
            done\ndone\ndone\ndone\ndone\nrefused Quota\nvalue 00000000\nquota 5 5 0\n",
        malformed: None,
    },
    // both again with four times the frames
    Worked {
        name: "tenant_alone_in_a_larger_machine",
        frames: 64,
        script: "\
            0 0 spawn 5\n0 1 load 40000000 4\n0 1 store 40001000 4 2\n0 1 load 40002000 4\n\
            0 1 load 40003000 4\n0 1 unmap 40000\n0 1 load 40003000 4\n0 1 quota\n",
        replies: "\
            child 1\nvalue 00000000\ndone\nvalue 00000000\nrefused Quota\ndone\nvalue 00000000\n\
            quota 5 5 0\n",
        malformed: None,
    },
    Worked {
        name: "tenant_beside_others_in_a_larger_machine",
        frames: 64,
        script: "\
            0 0 spawn 5\n0 0 spawn 9\n0 2 store 40000000 1 aa\n0 2 store 40001000 1 aa\n\
            0 2 store 40002000 1 aa\n0 2 store 40003000 1 aa\n0 2 store 40004000 1 aa\n\
            0 2 store 40005000 1 aa\n0 2 store 40006000 1 aa\n0 2 store 40007000 1 aa\n\
            0 1 load 40000000 4\n0 1 store 40001000 4 2\n0 1 load 40002000 4\n0 2 exit\n\
            0 1 load 40003000 4\n0 1 unmap 40000\n0 0 spawn 9\n0 2 store 40000000 1 aa\n\
            0 2 store 40001000 1 aa\n0 2 store 40002000 1 aa\n0 2 store 40003000 1 aa\n\
            0 2 store 40004000 1 aa\n0 2 store 40005000 1 aa\n0 2 store 40006000 1 aa\n\
            0 2 store 40007000 1 aa\n0 1 load 40003000 4\n0 1 quota\n",
        replies: "\
            child 1\nchild 2\ndone\ndone\ndone\ndone\ndone\ndone\ndone\nrefused Quota\n\
            value 00000000\ndone\nvalue 00000000\ndone\nrefused Quota\ndone\nchild 2\ndone\ndone\n\
            done\ndone\ndone\ndone\ndone\nrefused Quota\nvalue 00000000\nquota 5 5 0\n",
        malformed: None,
    },
];
