//! Scripts with failures, joins, a node that comes back and coded disks.

/// `@` is between scripts.
pub const SCRIPTS: &str =
    "cluster 4\nsession 1 node 1\nsession 2 node 0\n1 vdi create -z 12 a 12K\n1 vdi open a\n1 vdi write 0 12K fill 1\nsettle\n\
1 vdi write 0 512 fill 2\n1 vdi write 4K 512 fill 2\nfail 1\ndump\n2 vdi open a\n2 vdi check\n2 vdi check\n2 vdi read 0 12K\n\
dump\n@\
cluster 3\nsession 1 node 0\nsession 2 node 1\n1 vdi create -z 12 base 8K\n1 vdi open base\n1 vdi write 0 512 fill 1\n\
1 vdi write 4K 512 fill 8\n1 vdi snapshot -s gold\n1 vdi write 0 512 fill 2\n1 vdi close\nsettle\n\
2 vdi clone -s gold base copy\n2 vdi open copy\n2 vdi read 0 512\n2 vdi write 512 512 fill 3\n2 vdi read 0 1K\n\
2 vdi read 4K 512\nvdi list\n1 vdi delete base\n1 vdi delete -s gold base\nsettle\n2 vdi read 0 1K\n2 vdi read 4K 512\n\
2 vdi check\nvdi list\n@\
cluster 6\nsession 1 node 0\n1 vdi create -c 4:2 -z 12 vm 16K\n1 vdi open vm\n1 vdi write 0 2K step 1\ndump\nfail 4\nfail 5\n\
settle\n1 vdi read 0 2K\n1 vdi write 0 512 fill 9\ncluster info\ndump\njoin 6\njoin 7\nsettle\n1 vdi write 0 512 fill 9\n\
1 vdi read 0 2K\ncluster info\ndump\n@\
cluster 4\ntries 100\nsession 1 node 1\n1 vdi create -z 12 a 16K\n1 vdi open a\n1 vdi write 0 512 fill 1\nnode list\n\
1 vdi write 0 512 fill 2\n1 vdi write 512 512 fill 3\n1 vdi write 1K 512 fill 4\nfail 3\nsettle\n1 vdi read 0 2K\ncluster info\n\
node list\n@\
cluster 4\nsession 1 node 0\nsession 2 node 1\n1 vdi create -z 12 a 16K\n1 vdi open a\n1 vdi write 0 512 fill 1\nsettle\n\
2 vdi open a\nvdi list\nfail 0\nsettle\n2 vdi open a\n2 vdi read 0 512\n1 vdi close\nvdi list\ncluster info\n@\
cluster 5\nsession 1 node 0\n1 vdi create -c 2 -z 12 a 16K\n1 vdi open a\n1 vdi write 0 1K fill 1\nnode list\nfail 2\nfail 3\n\
settle\n1 vdi read 0 1K\n1 vdi write 0 512 fill 2\ncluster info\nvdi list\nback 3\nsettle\n1 vdi read 0 1K\nnode list\n@\
cluster 4\nsession 1 node 0\n1 vdi create -c 2 -z 12 a 16K\n1 vdi open a\n1 vdi write 0 512 fill 1\ndump\nfail 3\nsettle\n\
1 vdi write 0 512 fill 2\ndump\nback 3\ndump\nfail 2\nsettle\n1 vdi read 0 512\ncluster info\ndump\n@\
cluster 1\nsession 1 node 0\n1 vdi create -c 1 -z 12 a 16K\n1 vdi open a\n1 vdi write 0 512 fill 7\n1 vdi read 0 1024\n\
1 vdi close\n@\
cluster 1\nsession 1 node 0\n1 vdi create -c 1 -z 12 disk 16K\n1 vdi open disk\n1 vdi write 0 4K fill 17\n\
1 vdi write 1K 1K fill 200\n1 vdi read 0 4K\n@\
cluster 1\nsession 1 node 0\n1 vdi create -c 1 -z 12 small 1536\n1 vdi open small\n1 vdi read 0 512\n\
1 vdi write 1024 512 fill 255\n1 vdi read 512 1024\n1 vdi read 1536 512\n@\
cluster 4\nsession 1 node 0\n1 vdi create -c 2 -z 12 a 16K\n1 vdi open a\n1 vdi write 0 1K fill 6\nnode list\ndump\nfail 3\n\
settle\ncluster info\ndump\nfail 2\nsettle\ncluster info\ndump\n1 vdi read 0 2K\n@\
cluster 3\nsession 1 node 0\nsession 2 node 1\n1 vdi create -z 12 a 8K\n1 vdi open a\n1 vdi write 0 1K fill 1\n\
1 vdi write 4K 512 fill 8\n1 vdi snapshot -s monday\n1 vdi write 0 512 fill 2\n1 vdi read 0 1K\n1 vdi read 4K 512\n1 vdi check\n\
vdi list\n2 vdi open -s monday a\n2 vdi read 0 1K\n2 vdi read 4K 512\n2 vdi write 0 512 fill 3\nsettle\n@\
cluster 5\nsession 1 node 1\nsession 2 node 2\n1 vdi create -c 2:1 -z 12 a 16K\n1 vdi open a\n1 vdi write 0 512 fill 1\nsettle\n\
1 vdi write 0 512 fill 2\nfail 1\nsettle\n2 vdi open a\n2 vdi read 0 512\n2 vdi write 0 512 fill 3\n2 vdi read 0 512\n\
cluster info\n@\
cluster 3\nsession 1 node 0\n1 vdi create -c 1 -z 12 a 32K\n1 vdi open a\n1 vdi write 0 32K fill 5\nnode list\nreweight 2 1\n\
node list\n1 vdi read 0 32K\nsettle\nreweight 2 64\nnode list\n1 vdi read 0 32K\ncluster info\n@\
cluster 6\nzone 0 0\nzone 1 0\nzone 2 1\nzone 3 1\nzone 4 2\nzone 5 2\nzone 6 1\nsession 1 node 0\n1 vdi create -z 12 a 16K\n\
1 vdi open a\n1 vdi write 0 512 fill 1\ndump\nfail 2\nfail 3\nsettle\n1 vdi read 0 512\n1 vdi write 0 512 fill 2\n\
1 vdi create -z 12 b 16K\n1 vdi create -c 2 -z 12 c 16K\ncluster info\njoin 6\nsettle\n1 vdi write 0 512 fill 2\n\
1 vdi read 0 512\ncluster info\ndump\n@\
cluster 4\nsession 1 node 0\nsession 2 node 1\n1 vdi create -z 12 a 16K\n1 vdi open a\nsettle\n2 vdi open a\nsettle\nfail 0\n\
settle\n2 vdi open a\ncluster info\n@\
cluster 7\nsession 1 node 0\n1 vdi create -c 4:2 -z 12 vm 64K\n1 vdi open vm\n1 vdi write 0 8K step 0\n\
1 vdi write 32K 8K fill 17\nsettle\nfail 6\nsettle\n1 vdi write 512 512 fill 200\nsettle\njoin 7\nsettle\n1 vdi read 0 2048\n\
1 vdi read 32K 8K\ncluster info\n@\
cluster 5\nsession 1 node 0\nsession 2 node 1\nsession 3 node 2\n1 vdi create -c 2 -z 12 a 16K\n2 vdi create -c 3 -z 12 b 16K\n\
3 vdi create -c 2:1 -z 12 c 16K\nsettle\n1 vdi open a\n2 vdi open b\n3 vdi open c\n1 vdi write 0 4K fill 1\n\
2 vdi write 0 4K fill 2\n3 vdi write 0 4K fill 3\n1 vdi read 0 4K\n2 vdi read 0 4K\n3 vdi read 0 4K\nvdi list\n@\
cluster 3\nsession 1 node 0\nsession 2 node 1\n1 vdi create -z 12 a 16K\n2 vdi create -z 12 b 16K\n1 vdi open a\n2 vdi open b\n\
join 3\njoin 4\n1 vdi write 0 8K fill 1\n2 vdi write 0 8K fill 2\n1 vdi read 0 8K\n2 vdi read 0 8K\nsettle\ncluster info\n@\
cluster 6\nsession 1 node 0\n1 vdi create -c 2:2 -z 12 a 16K\n1 vdi open a\n1 vdi write 0 3K step 1\nsettle\nfail 5\n\
1 vdi write 0 3K step 9\nsettle\n1 vdi read 0 3K\nback 5\nsettle\n1 vdi read 0 3K\ncluster info\n";
