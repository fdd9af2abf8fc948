//! Links from a node over eth1 to the next one over eth0.

use super::answers;

// What is shown, a script of two nodes, and what is told of them.
const TABLES: [(&str, &str, &str); 19] = [
    (
        "above the range",
        "node a\nrange add interface:eth1 range:s0-s2:c1\nnode b\nunlbl accept on\nunlbl add default address:10.0.0.0/8 label:s2:c0.c5\nflow one.pcap - send:a,app_t,eth1,s1:c1 receive:b,eth0\n",
        "hop 1 2 covered\ncovered\n",
    ),
    (
        "the range itself",
        "node a\nrange add interface:eth1 range:s0-s2:c1\nnode b\nunlbl accept on\nunlbl add default address:10.0.0.0/8 label:s2:c1\nflow one.pcap - send:a,app_t,eth1,s1:c1 receive:b,eth0\n",
        "hop 1 2 covered\ncovered\n",
    ),
    (
        "a category is missing",
        "node a\nrange add interface:eth1 range:s0-s2:c1\nnode b\nunlbl accept on\nunlbl add default address:10.0.0.0/8 label:s2\nflow one.pcap - send:a,app_t,eth1,s1:c1 receive:b,eth0\n",
        "hop 1 2 uncovered entry 0\nuncovered\n",
    ),
    (
        "the level is low",
        "node a\nrange add interface:eth1 range:s0-s2:c1\nnode b\nunlbl accept on\nunlbl add default address:10.0.0.0/8 label:s1:c1\nflow one.pcap - send:a,app_t,eth1,s1:c1 receive:b,eth0\n",
        "hop 1 2 uncovered entry 0\nuncovered\n",
    ),
    (
        "the last category is missing",
        "node a\nrange add interface:eth1 range:s0-s0:c0.c65534\nnode b\nunlbl accept on\nunlbl add default address:10.0.0.0/8 label:s0:c0.c65533\nflow one.pcap - send:a,app_t,eth1,s1:c1 receive:b,eth0\n",
        "hop 1 2 uncovered entry 0\nuncovered\n",
    ),
    (
        "the high label counts",
        "node a\nrange add interface:eth1 range:s0-s2:c1\nnode b\nunlbl accept on\nunlbl add default address:10.0.0.0/8 label:s0-s2:c1\nflow one.pcap - send:a,app_t,eth1,s1:c1 receive:b,eth0\n",
        "hop 1 2 covered\ncovered\n",
    ),
    (
        "and the range's high end",
        "node a\nrange add interface:eth1 range:s0-s3\nnode b\nunlbl accept on\nunlbl add default address:10.0.0.0/8 label:s2\nflow one.pcap - send:a,app_t,eth1,s1:c1 receive:b,eth0\n",
        "hop 1 2 uncovered entry 0\nuncovered\n",
    ),
    (
        "no range",
        "node a\nnode b\nunlbl accept on\nunlbl add default address:10.0.0.0/8 label:s2\nflow one.pcap - send:a,app_t,eth1,s1:c1 receive:b,eth0\n",
        "hop 1 2 uncovered NoRange\nuncovered\n",
    ),
    (
        "a range of another interface",
        "node a\nrange add interface:eth0 range:s0-s1\nnode b\nunlbl accept on\nunlbl add default address:10.0.0.0/8 label:s2\nflow one.pcap - send:a,app_t,eth1,s1:c1 receive:b,eth0\n",
        "hop 1 2 uncovered NoRange\nuncovered\n",
    ),
    (
        "the default range",
        "node a\nrange add default range:s0-s1\nnode b\nunlbl accept on\nunlbl add default address:10.0.0.0/8 label:s1\nflow one.pcap - send:a,app_t,eth1,s1:c1 receive:b,eth0\n",
        "hop 1 2 covered\ncovered\n",
    ),
    (
        "the interface's own range",
        "node a\nrange add default range:s0-s3\nrange add interface:eth1 range:s0-s2:c1\nnode b\nunlbl accept on\nunlbl add default address:10.0.0.0/8 label:s2:c1\nflow one.pcap - send:a,app_t,eth1,s1:c1 receive:b,eth0\n",
        "hop 1 2 covered\ncovered\n",
    ),
    (
        "nothing is accepted",
        "node a\nrange add interface:eth1 range:s0-s2:c1\nnode b\nunlbl accept on\nunlbl add default address:10.0.0.0/8 label:s2\nunlbl accept off\nflow one.pcap - send:a,app_t,eth1,s1:c1 receive:b,eth0\n",
        "hop 1 2 covered\ncovered\n",
    ),
    (
        "nothing was ever accepted",
        "node a\nnode b\nunlbl add default address:10.0.0.0/8 label:s0\nflow one.pcap - send:a,app_t,eth1,s1:c1 receive:b,eth0\n",
        "hop 1 2 covered\ncovered\n",
    ),
    (
        "no entry",
        "node a\nnode b\nunlbl accept on\nflow one.pcap - send:a,app_t,eth1,s1:c1 receive:b,eth0\n",
        "hop 1 2 covered\ncovered\n",
    ),
    (
        "none of this interface",
        "node a\nnode b\nunlbl accept on\nunlbl add interface:eth1 address:10.0.0.0/8 label:s0\nflow one.pcap - send:a,app_t,eth1,s1:c1 receive:b,eth0\n",
        "hop 1 2 covered\ncovered\n",
    ),
    (
        "own entries in place of the default one",
        "node a\nrange add interface:eth1 range:s0-s2:c1\nnode b\nunlbl accept on\nunlbl add default address:10.0.0.0/8 label:s0\nunlbl add interface:eth0 address:10.0.0.0/8 label:s2:c1\nflow one.pcap - send:a,app_t,eth1,s1:c1 receive:b,eth0\n",
        "hop 1 2 covered\ncovered\n",
    ),
    (
        "counted over all entries",
        "node a\nrange add interface:eth1 range:s0-s2:c1\nnode b\nunlbl accept on\nunlbl add default address:10.0.0.0/8 label:s0\nunlbl add interface:eth1 address:10.0.0.0/8 label:s0\nunlbl add interface:eth0 address:10.0.0.0/8 label:s2:c1\nunlbl add interface:eth0 address:11.0.0.0/8 label:s2\nflow one.pcap - send:a,app_t,eth1,s1:c1 receive:b,eth0\n",
        "hop 1 2 uncovered entry 3\nuncovered\n",
    ),
    (
        "the first of two",
        "node a\nrange add interface:eth1 range:s0-s2:c1\nnode b\nunlbl accept on\nunlbl add default address:10.0.0.0/8 label:s2:c1\nunlbl add default address:10.0.0.0/9 label:s1\nunlbl add default address:10.0.0.0/10 label:s0\nflow one.pcap - send:a,app_t,eth1,s1:c1 receive:b,eth0\n",
        "hop 1 2 uncovered entry 1\nuncovered\n",
    ),
    (
        "IPv6 entries count too",
        "node a\nrange add interface:eth1 range:s0-s2:c1\nnode b\nunlbl accept on\nunlbl add default address:10.0.0.0/8 label:s2:c1\nunlbl add default address:fd00::/8 label:s1\nflow one.pcap - send:a,app_t,eth1,s1:c1 receive:b,eth0\n",
        "hop 1 2 uncovered entry 1\nuncovered\n",
    ),
];

// The same where the nodes give numbers meanings of their own.
const READINGS: [(&str, &str, &str); 12] = [
    (
        "two categories change places at the left node",
        "node a\nrange add interface:eth1 range:s0-s2:c1\nreading categories:1=9,9=1\nnode b\nunlbl accept on\nunlbl add default address:10.0.0.0/8 label:s2:c9\nflow one.pcap - send:a,app_t,eth1,s1:c1 receive:b,eth0\n",
        "hop 1 2 covered\ncovered\n",
    ),
    (
        "where the number means another",
        "node a\nrange add interface:eth1 range:s0-s2:c1\nreading categories:1=9,9=1\nnode b\nunlbl accept on\nunlbl add default address:10.0.0.0/8 label:s2:c1\nflow one.pcap - send:a,app_t,eth1,s1:c1 receive:b,eth0\n",
        "hop 1 2 uncovered entry 0\nuncovered\n",
    ),
    (
        "two change places at the right node",
        "node a\nrange add interface:eth1 range:s0-s2:c1\nnode b\nunlbl accept on\nunlbl add default address:10.0.0.0/8 label:s2:c9\nreading categories:1=9,9=1\nflow one.pcap - send:a,app_t,eth1,s1:c1 receive:b,eth0\n",
        "hop 1 2 covered\ncovered\n",
    ),
    (
        "both by the same name",
        "node a\nrange add interface:eth1 range:s0-s2:c1\nreading categories:1=70000\nnode b\nunlbl accept on\nunlbl add default address:10.0.0.0/8 label:s2:c7\nreading categories:7=70000\nflow one.pcap - send:a,app_t,eth1,s1:c1 receive:b,eth0\n",
        "hop 1 2 covered\ncovered\n",
    ),
    (
        "a name that the right node has not",
        "node a\nrange add interface:eth1 range:s0-s2:c1\nreading categories:1=70000\nnode b\nunlbl accept on\nunlbl add default address:10.0.0.0/8 label:s2:c0.c65534\nreading categories:7=70001\nflow one.pcap - send:a,app_t,eth1,s1:c1 receive:b,eth0\n",
        "hop 1 2 uncovered entry 0\nuncovered\n",
    ),
    (
        "levels by the left reading",
        "node a\nrange add interface:eth1 range:s0-s254\nreading levels:254=255,255=256\nnode b\nunlbl accept on\nunlbl add default address:10.0.0.0/8 label:s254\nflow one.pcap - send:a,app_t,eth1,s1:c1 receive:b,eth0\n",
        "hop 1 2 uncovered entry 0\nuncovered\n",
    ),
    (
        "levels by the right reading",
        "node a\nrange add interface:eth1 range:s0-s255\nnode b\nunlbl accept on\nunlbl add default address:10.0.0.0/8 label:s254\nreading levels:254=255,255=256\nflow one.pcap - send:a,app_t,eth1,s1:c1 receive:b,eth0\n",
        "hop 1 2 covered\ncovered\n",
    ),
    (
        "a number on the wire differs",
        "node a\ncipsov4 add trans doi:1 tags:2 levels:5=0\nnode b\ncipsov4 add pass doi:1 tags:2\nflow one.pcap - send:a,app_t,eth1,s1:c1 receive:b,eth0\n",
        "hop 1 2 disagree cipsov4 1 level 0 5 0\nuncovered\n",
    ),
    (
        "a difference is told before a range that is missing",
        "node a\ncipsov4 add pass doi:1 tags:1\nreading categories:7=70000\nnode b\ncipsov4 add pass doi:1 tags:1\nunlbl accept on\nunlbl add default address:10.0.0.0/8 label:s0\nflow one.pcap - send:a,app_t,eth1,s1:c1 receive:b,eth0\n",
        "hop 1 2 disagree cipsov4 1 category 7 70000 7\nuncovered\n",
    ),
    (
        "and where nothing is accepted",
        "node a\ncipsov4 add pass doi:1 tags:1\nreading categories:7=70000\nnode b\ncipsov4 add pass doi:1 tags:1\nflow one.pcap - send:a,app_t,eth1,s1:c1 receive:b,eth0\n",
        "hop 1 2 disagree cipsov4 1 category 7 70000 7\nuncovered\n",
    ),
    (
        "translated numbers",
        "node a\ncipsov4 add trans doi:16 tags:1 levels:0=10,2=12 categories:1=5\nrange add interface:eth1 range:s0-s2:c1\nreading categories:1=70000\nnode b\ncipsov4 add trans doi:16 tags:1 levels:0=10,2=12 categories:7=5\nunlbl accept on\nunlbl add default address:10.0.0.0/8 label:s2:c7\nreading categories:7=70000\nflow one.pcap - send:a,app_t,eth1,s1:c1 receive:b,eth0\n",
        "hop 1 2 covered\ncovered\n",
    ),
    (
        "by what they mean at their own node",
        "node a\ncipsov4 add trans doi:16 tags:1 levels:0=10,2=12 categories:1=5\nrange add interface:eth1 range:s0-s2:c1\nreading categories:1=70000\nnode b\ncipsov4 add trans doi:16 tags:1 levels:0=10,2=12 categories:7=5\nunlbl accept on\nunlbl add default address:10.0.0.0/8 label:s2:c1\nreading categories:7=70000\nflow one.pcap - send:a,app_t,eth1,s1:c1 receive:b,eth0\n",
        "hop 1 2 uncovered entry 0\nuncovered\n",
    ),
];

#[test]
fn tells_by_the_tables(rt: HostRuntime) {
    for (shown, script, wanted) in TABLES {
        assert!(rt;
            answers(&rt, rt.alloc(), "s 1", script, 0, wanted),
            "{shown}"
        );
    }
}

#[test]
fn tells_by_the_readings(rt: HostRuntime) {
    for (shown, script, wanted) in READINGS {
        assert!(rt;
            answers(&rt, rt.alloc(), "s 1", script, 0, wanted),
            "{shown}"
        );
    }
}
