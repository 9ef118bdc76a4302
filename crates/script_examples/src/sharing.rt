//! Worked scripts of processes with pages in common.

use super::Worked;

/// Two processes read what the other stored.
pub const SHARE_BOTH_WAYS: Worked = Worked {
    name: "share_both_ways",
    frames: 16,
    script: "\
        0 0 store 40000000 4 7\n0 0 spawn 5\n0 0 offer 40000 1 rw\n1 1 accept 0 40000 50000\n\
        1 1 load 50000000 4\n1 1 store 50000000 4 9\n0 0 load 40000000 4\n1 1 quota\n\
        1 1 accept 0 40000 50001\n",
    replies: "\
        done\nchild 1\ndone\ndone\nvalue 00000007\ndone\nvalue 00000009\nquota 5 3 0\n\
        refused NoOffer\n",
    malformed: None,
};

pub const SCRIPTS: [Worked; 9] = [
    SHARE_BOTH_WAYS,
    // an offer of a page that was unmapped finds no taker
    Worked {
        name: "unmap_drops_offers",
        frames: 16,
        script: "\
            0 0 map 40000 rw\n0 0 spawn 5\n0 0 offer 40000 1 rw\n0 0 unmap 40000\n0 0 map 40000 rw\n\
            1 1 accept 0 40000 40000\n",
        replies: "done\nchild 1\ndone\ndone\ndone\nrefused NoOffer\n",
        malformed: None,
    },
    // a page that was offered without the right to write cannot be written, nor offered with it
    Worked {
        name: "read_only_share",
        frames: 16,
        script: "\
            0 0 store 40000000 4 1\n0 0 spawn 5\n0 0 offer 40000 1 ro\n1 1 accept 0 40000 40000\n\
            1 1 store 40000000 4 2\n1 1 protect 40000 rw\n1 1 offer 40000 0 rw\n1 1 info 40000\n",
        replies: "\
            done\nchild 1\ndone\ndone\nfault 40000000 7\nrefused Rights\nrefused Rights\n\
            info 0 0 0 0 2\n",
        malformed: None,
    },
    // a page stays for the other process when the one that mapped it goes
    Worked {
        name: "owner_leaves",
        frames: 16,
        script: "\
            0 0 spawn 5\n0 0 spawn 5\n0 1 store 40000000 4 c0ffee\n0 1 offer 40000 2 rw\n\
            0 2 accept 1 40000 40000\n0 2 info 40000\n0 1 unmap 40000\n0 1 store 40000000 4 bad\n\
            0 1 exit\n0 2 load 40000000 4\n0 2 info 40000\n",
        replies: "\
            child 1\nchild 2\ndone\ndone\ndone\ninfo 1 1 0 0 2\ndone\ndone\ndone\nvalue 00c0ffee\n\
            info 1 1 1 0 1\n",
        malformed: None,
    },
    // calls with more than one thing wrong, each refused for the first
    Worked {
        name: "refusals_in_order",
        frames: 16,
        script: "\
            0 7 load 40000002 4\n0 0 load 40000002 4\n0 0 load 3ffffffe 4\n0 0 map 3ffff rw\n\
            0 0 map f0000 rw\n0 0 unmap 40000\n0 0 map 40000 ro\n0 0 offer 40000 0 rw\n\
            0 0 offer 40000 9 rw\n0 0 protect 40000 rw\n0 0 withdraw 40000 1\n0 0 spawn 3\n\
            0 0 offer 40000 1 rw\n0 0 offer 40000 1 ro\n0 1 spawn 1\n0 1 exit\n\
            0 0 withdraw 40000 1\n",
        replies: "\
            refused NoProcess\nvalue 00000000\nfault 3ffffffe 4\nrefused BadPage\n\
            refused BadPage\ndone\ndone\nrefused SelfOffer\nrefused NoTarget\ndone\n\
            refused NoOffer\nchild 1\ndone\nrefused OfferPending\nchild 2\nrefused HasChildren\n\
            done\n",
        malformed: None,
    },
    // 32 offers of one process, and the next
    Worked {
        name: "offer_limit",
        frames: 64,
        script: "\
            0 0 map 40000 rw\n0 0 map 40001 rw\n0 0 map 40002 rw\n0 0 map 40003 rw\n\
            0 0 map 40004 rw\n0 0 map 40005 rw\n0 0 map 40006 rw\n0 0 map 40007 rw\n\
            0 0 map 40008 rw\n0 0 map 40009 rw\n0 0 map 4000a rw\n0 0 map 4000b rw\n\
            0 0 map 4000c rw\n0 0 map 4000d rw\n0 0 map 4000e rw\n0 0 map 4000f rw\n\
            0 0 map 40010 rw\n0 0 map 40011 rw\n0 0 map 40012 rw\n0 0 map 40013 rw\n\
            0 0 map 40014 rw\n0 0 map 40015 rw\n0 0 map 40016 rw\n0 0 map 40017 rw\n\
            0 0 map 40018 rw\n0 0 map 40019 rw\n0 0 map 4001a rw\n0 0 map 4001b rw\n\
            0 0 map 4001c rw\n0 0 map 4001d rw\n0 0 map 4001e rw\n0 0 map 4001f rw\n\
            0 0 map 40020 rw\n0 0 spawn 5\n0 0 offer 40000 1 rw\n0 0 offer 40001 1 rw\n\
            0 0 offer 40002 1 rw\n0 0 offer 40003 1 rw\n0 0 offer 40004 1 rw\n0 0 offer 40005 1 rw\n\
            0 0 offer 40006 1 rw\n0 0 offer 40007 1 rw\n0 0 offer 40008 1 rw\n0 0 offer 40009 1 rw\n\
            0 0 offer 4000a 1 rw\n0 0 offer 4000b 1 rw\n0 0 offer 4000c 1 rw\n0 0 offer 4000d 1 rw\n\
            0 0 offer 4000e 1 rw\n0 0 offer 4000f 1 rw\n0 0 offer 40010 1 rw\n0 0 offer 40011 1 rw\n\
            0 0 offer 40012 1 rw\n0 0 offer 40013 1 rw\n0 0 offer 40014 1 rw\n0 0 offer 40015 1 rw\n\
            0 0 offer 40016 1 rw\n0 0 offer 40017 1 rw\n0 0 offer 40018 1 rw\n0 0 offer 40019 1 rw\n\
            0 0 offer 4001a 1 rw\n0 0 offer 4001b 1 rw\n0 0 offer 4001c 1 rw\n0 0 offer 4001d 1 rw\n\
            0 0 offer 4001e 1 rw\n0 0 offer 4001f 1 rw\n0 0 offer 40020 1 rw\n\
            1 1 accept 0 40000 40000\n0 0 offer 40020 1 rw\n",
        replies: "\
            done\ndone\ndone\ndone\ndone\ndone\ndone\ndone\ndone\ndone\ndone\ndone\ndone\ndone\n\
            done\ndone\ndone\ndone\ndone\ndone\ndone\ndone\ndone\ndone\ndone\ndone\ndone\ndone\n\
            done\ndone\ndone\ndone\ndone\nchild 1\ndone\ndone\ndone\ndone\ndone\ndone\ndone\ndone\n\
            done\ndone\ndone\ndone\ndone\ndone\ndone\ndone\ndone\ndone\ndone\ndone\ndone\ndone\n\
            done\ndone\ndone\ndone\ndone\ndone\ndone\ndone\ndone\ndone\nrefused TooManyOffers\n\
            done\ndone\n",
        malformed: None,
    },
    // offers to a process end with its exit
    Worked {
        name: "exit_drops_offers",
        frames: 64,
        script: "\
            0 0 map 40000 rw\n0 0 map 40001 rw\n0 0 map 40002 rw\n0 0 map 40003 rw\n\
            0 0 map 40004 rw\n0 0 map 40005 rw\n0 0 map 40006 rw\n0 0 map 40007 rw\n\
            0 0 map 40008 rw\n0 0 map 40009 rw\n0 0 map 4000a rw\n0 0 map 4000b rw\n\
            0 0 map 4000c rw\n0 0 map 4000d rw\n0 0 map 4000e rw\n0 0 map 4000f rw\n\
            0 0 map 40010 rw\n0 0 map 40011 rw\n0 0 map 40012 rw\n0 0 map 40013 rw\n\
            0 0 map 40014 rw\n0 0 map 40015 rw\n0 0 map 40016 rw\n0 0 map 40017 rw\n\
            0 0 map 40018 rw\n0 0 map 40019 rw\n0 0 map 4001a rw\n0 0 map 4001b rw\n\
            0 0 map 4001c rw\n0 0 map 4001d rw\n0 0 map 4001e rw\n0 0 map 4001f rw\n\
            0 0 map 40020 rw\n0 0 spawn 5\n0 0 offer 40000 1 rw\n0 0 offer 40001 1 rw\n\
            0 0 offer 40002 1 rw\n0 0 offer 40003 1 rw\n0 0 offer 40004 1 rw\n0 0 offer 40005 1 rw\n\
            0 0 offer 40006 1 rw\n0 0 offer 40007 1 rw\n0 0 offer 40008 1 rw\n0 0 offer 40009 1 rw\n\
            0 0 offer 4000a 1 rw\n0 0 offer 4000b 1 rw\n0 0 offer 4000c 1 rw\n0 0 offer 4000d 1 rw\n\
            0 0 offer 4000e 1 rw\n0 0 offer 4000f 1 rw\n0 0 offer 40010 1 rw\n0 0 offer 40011 1 rw\n\
            0 0 offer 40012 1 rw\n0 0 offer 40013 1 rw\n0 0 offer 40014 1 rw\n0 0 offer 40015 1 rw\n\
            0 0 offer 40016 1 rw\n0 0 offer 40017 1 rw\n0 0 offer 40018 1 rw\n0 0 offer 40019 1 rw\n\
            0 0 offer 4001a 1 rw\n0 0 offer 4001b 1 rw\n0 0 offer 4001c 1 rw\n0 0 offer 4001d 1 rw\n\
            0 0 offer 4001e 1 rw\n0 0 offer 4001f 1 rw\n0 0 offer 40020 1 rw\n\
            1 1 accept 0 40000 40000\n0 0 offer 40020 1 rw\n0 1 exit\n0 0 spawn 5\n\
            1 1 accept 0 40001 40001\n0 0 offer 40001 1 rw\n",
        replies: "\
            done\ndone\ndone\ndone\ndone\ndone\ndone\ndone\ndone\ndone\ndone\ndone\ndone\ndone\n\
            done\ndone\ndone\ndone\ndone\ndone\ndone\ndone\ndone\ndone\ndone\ndone\ndone\ndone\n\
            done\ndone\ndone\ndone\ndone\nchild 1\ndone\ndone\ndone\ndone\ndone\ndone\ndone\ndone\n\
            done\ndone\ndone\ndone\ndone\ndone\ndone\ndone\ndone\ndone\ndone\ndone\ndone\ndone\n\
            done\ndone\ndone\ndone\ndone\ndone\ndone\ndone\ndone\ndone\nrefused TooManyOffers\n\
            done\ndone\ndone\nchild 1\nrefused NoOffer\ndone\n",
        malformed: None,
    },
    // a page is accepted before anybody stored to it
    Worked {
        name: "lazy_share",
        frames: 16,
        script: "\
            0 0 map 40000 rw\n0 0 spawn 5\n0 0 offer 40000 1 rw\n1 1 accept 0 40000 40000\n\
            0 0 info 40000\n1 1 store 40000000 4 9\n0 0 load 40000000 4\n",
        replies: "done\nchild 1\ndone\ndone\ninfo 1 1 0 0 2\ndone\nvalue 00000009\n",
        malformed: None,
    },
    // a process exits, another gets its number, and nothing of the first is left to it
    Worked {
        name: "number_changes_hands",
        frames: 64,
        script: "\
            0 0 spawn 40\n0 0 spawn 5\n0 1 map 40000 rw\n0 1 map 40001 rw\n0 1 map 40002 rw\n\
            0 1 map 40003 rw\n0 1 map 40004 rw\n0 1 map 40005 rw\n0 1 map 40006 rw\n\
            0 1 map 40007 rw\n0 1 map 40008 rw\n0 1 map 40009 rw\n0 1 map 4000a rw\n\
            0 1 map 4000b rw\n0 1 map 4000c rw\n0 1 map 4000d rw\n0 1 map 4000e rw\n\
            0 1 map 4000f rw\n0 1 map 40010 rw\n0 1 map 40011 rw\n0 1 map 40012 rw\n\
            0 1 map 40013 rw\n0 1 map 40014 rw\n0 1 map 40015 rw\n0 1 map 40016 rw\n\
            0 1 map 40017 rw\n0 1 map 40018 rw\n0 1 map 40019 rw\n0 1 map 4001a rw\n\
            0 1 map 4001b rw\n0 1 map 4001c rw\n0 1 map 4001d rw\n0 1 map 4001e rw\n\
            0 1 map 4001f rw\n0 1 offer 40000 2 rw\n0 1 offer 40001 2 rw\n0 1 offer 40002 2 rw\n\
            0 1 offer 40003 2 rw\n0 1 offer 40004 2 rw\n0 1 offer 40005 2 rw\n0 1 offer 40006 2 rw\n\
            0 1 offer 40007 2 rw\n0 1 offer 40008 2 rw\n0 1 offer 40009 2 rw\n0 1 offer 4000a 2 rw\n\
            0 1 offer 4000b 2 rw\n0 1 offer 4000c 2 rw\n0 1 offer 4000d 2 rw\n0 1 offer 4000e 2 rw\n\
            0 1 offer 4000f 2 rw\n0 1 offer 40010 2 rw\n0 1 offer 40011 2 rw\n0 1 offer 40012 2 rw\n\
            0 1 offer 40013 2 rw\n0 1 offer 40014 2 rw\n0 1 offer 40015 2 rw\n0 1 offer 40016 2 rw\n\
            0 1 offer 40017 2 rw\n0 1 offer 40018 2 rw\n0 1 offer 40019 2 rw\n0 1 offer 4001a 2 rw\n\
            0 1 offer 4001b 2 rw\n0 1 offer 4001c 2 rw\n0 1 offer 4001d 2 rw\n0 1 offer 4001e 2 rw\n\
            0 1 offer 4001f 2 rw\n0 1 exit\n0 0 spawn 40\n0 2 accept 1 40000 40000\n\
            0 1 map 40000 rw\n0 1 offer 40000 2 rw\n",
        replies: "\
            child 1\nchild 2\ndone\ndone\ndone\ndone\ndone\ndone\ndone\ndone\ndone\ndone\ndone\n\
            done\ndone\ndone\ndone\ndone\ndone\ndone\ndone\ndone\ndone\ndone\ndone\ndone\ndone\n\
            done\ndone\ndone\ndone\ndone\ndone\ndone\ndone\ndone\ndone\ndone\ndone\ndone\ndone\n\
            done\ndone\ndone\ndone\ndone\ndone\ndone\ndone\ndone\ndone\ndone\ndone\ndone\ndone\n\
            done\ndone\ndone\ndone\ndone\ndone\ndone\ndone\ndone\ndone\ndone\ndone\nchild 1\n\
            refused NoOffer\ndone\ndone\n",
        malformed: None,
    },
];
