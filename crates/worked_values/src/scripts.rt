//! Scripts, and what is printed where they run.

/// Two gateways between an IPv4 network and another, with the meaning of the last node's categories: a packet goes over CIPSO, CALIPSO and
/// CIPSO again, and over the first two of them.
pub const CROSSING: &str = "node a
cipsov4 add pass doi:8 tags:1
map add default protocol:cipsov4,8
node g
cipsov4 add pass doi:8 tags:1
calipso add pass doi:9
map add default protocol:calipso,9
pair add address4:10.0.0.1 address6:fd00::1
pair add address4:10.0.0.2 address6:fd00::2
node h
calipso add pass doi:9
cipsov4 add trans doi:10 tags:2 levels:0=10,1=11,2=12 categories:1=5,3=4
map add default protocol:cipsov4,10
pair add address4:10.0.0.1 address6:fd00::1
pair add address4:10.0.0.2 address6:fd00::2
node b
cipsov4 add trans doi:10 tags:2 levels:0=10,1=11,2=12 categories:7=5,8=4
map add default protocol:cipsov4,10
receiver add address:10.0.0.2 domain:sink_t level:s3:c7.c9
reading categories:7=1,8=3,1=7,3=8
flow one.pcap far.pcap send:a,app_t,eth0,s2:c1,c3 forward:g,eth0,eth1,any forward:h,eth0,eth1,any receive:b,eth0
flow one.pcap half.pcap send:a,app_t,eth0,s2:c1,c3 forward:g,eth0,eth1,any
";

/// What is printed of it where `one.pcap` has one packet without a label.
pub const CROSSED: &str = "command 1 a done
command 2 a done
command 3 g done
command 4 g done
command 5 g done
command 6 g done
command 7 g done
command 8 h done
command 9 h done
command 10 h done
command 11 h done
command 12 h done
command 13 b done
command 14 b done
command 15 b done
flow 1 one.pcap
packet 1.1 delivered s2:c7,c8 to 10.0.0.2 versions 15,15,15,15
end 1 packets 1 passed 1 denied 0
flow 2 one.pcap
packet 2.1 sent calipso,9 versions 15,15
end 2 packets 1 passed 1 denied 0
done
";

/// Commands of the gateway `h` behind those of `CROSSING`: it exchanges the numbers of two categories.
pub const EXCHANGE: &str = "node h
map del default
cipsov4 del doi:10
cipsov4 add trans doi:10 tags:2 levels:2=12 categories:1=4,3=5
map add default protocol:cipsov4,10
";
