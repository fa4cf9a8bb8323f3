// Lines of words for databases.

pub(crate) const ROWS: &str = "\
# actions
show all: cyr_dbtool f flat show => open <f> Flat show <>
show a prefix: cyr_dbtool f flat show user. => open <f> Flat show <user.>
get: cyr_dbtool f twoskip get k => open <f> Twoskip get <k>
set: cyr_dbtool f twoskip set k v => open <f> Twoskip set <k> <v>
delete: cyr_dbtool f flat delete k => open <f> Flat delete <k>
consistent: cyr_dbtool f twoskip consistent => open <f> Twoskip consistent
repack: cyr_dbtool f twoskip repack => open <f> Twoskip repack
batch: cyr_dbtool f flat batch => open <f> Flat batch
exercise: cyr_dbtool f twoskip exercise 12 => open <f> Twoskip exercise 12
another action: cyr_dbtool f flat put k v => usage
an action in capitals: cyr_dbtool f flat SHOW => usage
an empty action: cyr_dbtool f flat  => usage
# where the flag stands
flag first: cyr_dbtool -n f flat set k v => make <f> Flat set <k> <v>
flag behind FILE: cyr_dbtool f -n flat get k => make <f> Flat get <k>
flag behind BACKEND: cyr_dbtool f flat -n delete k => make <f> Flat delete <k>
flag behind ACTION: cyr_dbtool f flat get -n k => make <f> Flat get <k>
flag last: cyr_dbtool f flat show -n => make <f> Flat show <>
flag behind KEY: cyr_dbtool f flat get k -n => make <f> Flat get <k>
flag behind VALUE: cyr_dbtool f flat set k v -n => make <f> Flat set <k> <v>
flag between KEY and VALUE: cyr_dbtool f flat set k -n v => usage
flag before the tool: -n cyr_dbtool f flat show => usage
flag twice: cyr_dbtool -n -n f flat show => usage
flag twice, first and last: cyr_dbtool -n f flat show -n => usage
flag twice in a bundle: cyr_dbtool -nn f flat show => usage
flag with a value: cyr_dbtool -n=1 f flat show => usage
flag with a letter too many: cyr_dbtool -nq f flat show => usage
another flag: cyr_dbtool -q f flat show => usage
a flag by a long name: cyr_dbtool --make f flat show => usage
# words that begin with a dash
end of flags first: cyr_dbtool -- f flat show => open <f> Flat show <>
flag, then end of flags: cyr_dbtool -n -- f flat show => make <f> Flat show <>
a file behind the end of flags: cyr_dbtool -- -n flat show => open <-n> Flat show <>
a key behind the end of flags: cyr_dbtool f flat get -- -k => open <f> Flat get <-k>
a key before the end of flags: cyr_dbtool f flat set k -- -v => open <f> Flat set <k> <-v>
the end of flags as a key: cyr_dbtool f flat set -- -- v => open <f> Flat set <--> <v>
the flag as a key: cyr_dbtool f flat -- get -n => open <f> Flat get <-n>
end of flags last: cyr_dbtool f flat show -- => open <f> Flat show <>
a dash as a key: cyr_dbtool f flat get - => open <f> Flat get <->
a dash as a file: cyr_dbtool - flat show => open <-> Flat show <>
a key with a dash: cyr_dbtool f flat get -k => usage
a negative number as a key: cyr_dbtool f flat get -5 => usage
a value with a dash: cyr_dbtool f flat set k -v => usage
# empty words
an empty key of get: cyr_dbtool f flat get  => open <f> Flat get <>
an empty prefix: cyr_dbtool f flat show  => open <f> Flat show <>
an empty key of set: cyr_dbtool f flat set  v => open <f> Flat set <> <v>
an empty value: cyr_dbtool f flat set k  => open <f> Flat set <k> <>
an empty file: cyr_dbtool  flat show => open <> Flat show <>
an empty word too many: cyr_dbtool f flat get k  => usage
# too few words
no file: cyr_dbtool => usage
a flag alone: cyr_dbtool -n => usage
no backend: cyr_dbtool f => usage
no action: cyr_dbtool f flat => usage
no key: cyr_dbtool f flat get => usage
no value: cyr_dbtool f flat set k => usage
nothing to delete: cyr_dbtool f flat delete => usage
no rounds: cyr_dbtool f flat exercise => usage
# too many words
show two: cyr_dbtool f flat show a b => usage
get two: cyr_dbtool f flat get a b => usage
set three: cyr_dbtool f flat set a b c => usage
delete two: cyr_dbtool f flat delete a b => usage
consistent with a word: cyr_dbtool f flat consistent x => usage
repack with a word: cyr_dbtool f flat repack x => usage
batch with a word: cyr_dbtool f flat batch x => usage
exercise with two words: cyr_dbtool f flat exercise 1 2 => usage
# backends
a backend in capitals: cyr_dbtool f FLAT show => usage
a backend with a capital: cyr_dbtool f Twoskip show => usage
another backend: cyr_dbtool f skiplist show => usage
an empty backend: cyr_dbtool f  show => usage
file and backend exchanged: cyr_dbtool flat f show => usage
# rounds
no round at all: cyr_dbtool f flat exercise 0 => open <f> Flat exercise 0
rounds with leading zeros: cyr_dbtool f flat exercise 00001 => open <f> Flat exercise 1
the most rounds: cyr_dbtool f flat exercise 10000 => open <f> Flat exercise 10000
a round too many: cyr_dbtool f flat exercise 10001 => usage
rounds of six digits: cyr_dbtool f flat exercise 000001 => usage
rounds with a plus: cyr_dbtool f flat exercise +5 => usage
rounds with a minus: cyr_dbtool f flat exercise -5 => usage
rounds with a minus behind the end of flags: cyr_dbtool f flat exercise -- -5 => usage
empty rounds: cyr_dbtool f flat exercise  => usage
rounds with a letter: cyr_dbtool f flat exercise 1a => usage
rounds with a point: cyr_dbtool f flat exercise 1.0 => usage
rounds in other digits: cyr_dbtool f flat exercise ٣ => usage
# help, version and other tools
short help: cyr_dbtool -h => usage
long help: cyr_dbtool --help => usage
help behind all words: cyr_dbtool f flat show --help => usage
short version: cyr_dbtool -V => usage
long version: cyr_dbtool --version => usage
help as a file: cyr_dbtool help flat show => open <help> Flat show <>
help alone: cyr_dbtool help => usage
an empty tool:  => usage
no tool but help: help => usage
no tool but a flag: --help => usage
a tool with a letter too many: cyr_dbtools f flat show => usage
a tool in capitals: CYR_DBTOOL f flat show => usage
the tool by its path: ./cyr_dbtool f flat show => usage
# conversion
to twoskip: cvt_cyrusdb f flat t twoskip => convert <f> Flat <t> Twoskip
to flat: cvt_cyrusdb f twoskip t flat => convert <f> Twoskip <t> Flat
to the same backend: cvt_cyrusdb f flat t flat => convert <f> Flat <t> Flat
conversion behind the end of flags: cvt_cyrusdb -- -f flat -t twoskip => convert <-f> Flat <-t> Twoskip
conversion with a flag: cvt_cyrusdb -n f flat t twoskip => usage
conversion with a file with a dash: cvt_cyrusdb -f flat t twoskip => usage
conversion with no new backend: cvt_cyrusdb f flat t => usage
conversion with no words: cvt_cyrusdb => usage
conversion with a word too many: cvt_cyrusdb f flat t twoskip x => usage
conversion from a backend in capitals: cvt_cyrusdb f Flat t twoskip => usage
conversion to a backend in capitals: cvt_cyrusdb f flat t TWOSKIP => usage
conversion with backends side by side: cvt_cyrusdb f t flat twoskip => usage
";
