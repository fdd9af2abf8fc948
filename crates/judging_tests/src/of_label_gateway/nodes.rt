//! Gateways, by the commands that were given to them.

use node_tables::Network;
use std::alloc::Global;
use std::process::Abort;
use worked_networks::obey;

/// A gateway from IPv4 into IPv6.
const INTO_SIX: &str = "cipsov4 add pass doi:8 tags:1
calipso add pass doi:9
map add default protocol:calipso,9
pair add address4:10.0.0.1 address6:fd00::1
pair add address4:10.0.0.2 address6:fd00::2";

/// The same gateway with a map into IPv4.
const INTO_FOUR: &str = "cipsov4 add pass doi:8 tags:1
calipso add pass doi:9
map add default protocol:cipsov4,8
pair add address4:10.0.0.1 address6:fd00::1
pair add address4:10.0.0.2 address6:fd00::2";

/// The first gateway with a DOI more.
const TWO_DOIS: &str = "cipsov4 add pass doi:8 tags:1
cipsov4 add pass doi:16 tags:1
calipso add pass doi:9
map add default protocol:calipso,9
pair add address4:10.0.0.1 address6:fd00::1
pair add address4:10.0.0.2 address6:fd00::2";

/// A gateway back into IPv4, with other numbers.
const BACK: &str = "calipso add pass doi:9
cipsov4 add trans doi:10 tags:2 levels:0=10,1=11,2=12 categories:1=5,3=4
map add default protocol:cipsov4,10
pair add address4:10.0.0.1 address6:fd00::1
pair add address4:10.0.0.2 address6:fd00::2";

/// The border of a site.
const BORDER: &str = "mgmt protocols
cipsov4 add pass doi:16 tags:1,2,5
map del default
map add default address:10.0.0.0/8 protocol:cipsov4,16
map add default address:192.168.7.0/24 protocol:unlbl
unlbl accept on
unlbl add interface:eth0 address:192.168.7.0/24 label:system_u:object_r:netlabel_peer_t:s0
receiver add address:10.0.0.2 domain:httpd_t level:s2:c0.c5
receiver add address:10.0.0.53 domain:named_t level:s0
range add interface:eth0 range:s0-s3:c0.c1023";

/// A node whose map has a DOI of few numbers.
const FEW_PAIRS: &str = "cipsov4 add pass doi:16 tags:1
cipsov4 add trans doi:3 tags:1 levels:2=2
map add default protocol:cipsov4,3";

/// A node with a domain for each way out.
pub(super) const CROSSROADS: &str = "cipsov4 add pass doi:16 tags:1
cipsov4 add pass doi:17 tags:2
cipsov4 add pass doi:18 tags:5
cipsov4 add pass doi:19 tags:1,2,5
cipsov4 add trans doi:3 tags:1 levels:2=7 categories:1=5,3=4
calipso add pass doi:9
map add domain:one_t protocol:cipsov4,16
map add domain:two_t protocol:cipsov4,17
map add domain:five_t protocol:cipsov4,18
map add domain:all_t protocol:cipsov4,19
map add domain:three_t protocol:cipsov4,3
map add domain:six_t protocol:calipso,9
map add domain:none_t protocol:unlbl
map add domain:part_t address:10.0.0.1 protocol:cipsov4,17
unlbl accept on
unlbl add default address:10.0.0.1 label:s2:c1-s2:c1,c3
unlbl add default address:10.0.0.4 label:s1-s2:c1,c3
unlbl add default address:10.0.0.5 label:s2:c300
unlbl add default address:fd00::1 label:s2
unlbl add interface:eth2 address:10.9.9.9 label:s0
range add interface:low0 range:s0-s1
range add interface:high0 range:s2-s3:c0.c1023
pair add address4:10.0.0.1 address6:fd00::1
pair add address4:10.0.0.2 address6:fd00::2
pair add address4:10.0.0.5 address6:fd00::5";

/// The nodes by their names.
pub(super) const NODES: &[(&str, &str)] = &[
    ("into_six", INTO_SIX),
    ("into_four", INTO_FOUR),
    ("two_dois", TWO_DOIS),
    ("back", BACK),
    ("border", BORDER),
    ("few_pairs", FEW_PAIRS),
    ("crossroads", CROSSROADS),
];

/// A node to which these commands were given.
pub(super) fn node(rt: &impl Abort, alloc: Global, commands: &str) -> Network {
    let mut network = Network::fresh(alloc, 1).expect(rt, "memory");
    for line in commands.lines() {
        assert!(rt; obey(alloc, line, &mut network).is_some(), "{line}");
    }
    network
}
