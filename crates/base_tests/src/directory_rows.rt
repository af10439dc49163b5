//! What logs come to: the decisions on their entries, the live disks, and the dead.

// A row: what it shows; the entries; the decision on each; the live disks then, in order.
// An entry is a word: a letter, the node, the session, and names as NAME, NAME:TAG or NAME:BASE:TAG, or ids.
// F S K: Reserve of origin Fresh, SnapshotOf, CloneOf; P C: Publish, Clone; N: Snapshot old:new; D: Delete; O: Lock;
// U: Unlock; X: Leave; J: Join; w: Reweight; r: Recovered. The opening members are nodes 0 to 3.
// A decision is - for none, the id, or ! with a letter: E VdiExist, N VdiNotLocked, B NoBaseVdi, T NoTag, V NoVdi, and
// L with the session, VdiLocked. A live disk is its id, name, tag, snap_id, parent, and the node and session of its holder.
// The rows were made up, or drawn where they say so, and answered by a program in Python that was written apart from this
// one, by the rules alone.
pub const ROWS: &[u8] = b"epochs decide nothing|J5 w1 r1 X1| - - - -;\n\
a name gets its own id|F01a| 01ec8c;\n\
a disk is published|F01a P0001ec8c| 01ec8c 01ec8c; 01ec8c/a//1/000000/-\n\
another name|F01b P0001f1a5| 01f1a5 01f1a5; 01f1a5/b//1/000000/-\n\
two names|F01a P0001ec8c F12b P1001f1a5| 01ec8c 01ec8c 01f1a5 01f1a5; 01ec8c/a//1/000000/- 01f1a5/b//1/000000/-\n\
a reservation bars the name|F01a F12a| 01ec8c !E;\n\
a published disk bars the name|F01a P0001ec8c F12a| 01ec8c 01ec8c !E; 01ec8c/a//1/000000/-\n\
after a deletion the name gets the next id|F01a P0001ec8c D01a F01a P0001ec8d| 01ec8c 01ec8c 01ec8c 01ec8d 01ec8d; 01ec8d/a//1/000000/-\n\
after a withdrawn reservation too|F01a U0101ec8c F01a P0001ec8d| 01ec8c - 01ec8d 01ec8d; 01ec8d/a//1/000000/-\n\
a deleted name is no bar|F01a P0001ec8c D12a F12a| 01ec8c 01ec8c 01ec8c 01ec8d;\n\
an unpublished disk can not be opened|F01a O01a| 01ec8c !V;\n\
nor deleted|F01a D01a| 01ec8c !V;\n\
a disk is opened|F01a P0001ec8c O01a| 01ec8c 01ec8c 01ec8c; 01ec8c/a//1/000000/01\n\
a held disk is refused with its session|F03a P0001ec8c O03a O12a| 01ec8c 01ec8c 01ec8c !L3; 01ec8c/a//1/000000/03\n\
also to its own session|F01a P0001ec8c O01a O01a| 01ec8c 01ec8c 01ec8c !L1; 01ec8c/a//1/000000/01\n\
a held disk is not deleted|F03a P0001ec8c O03a D12a| 01ec8c 01ec8c 01ec8c !L3; 01ec8c/a//1/000000/03\n\
nor by its own session|F01a P0001ec8c O01a D01a| 01ec8c 01ec8c 01ec8c !L1; 01ec8c/a//1/000000/01\n\
unlocked and opened by another|F01a P0001ec8c O01a U0101ec8c O12a| 01ec8c 01ec8c 01ec8c - 01ec8c; 01ec8c/a//1/000000/12\n\
another session unlocks nothing|F01a P0001ec8c O01a U0201ec8c U1101ec8c O12a| 01ec8c 01ec8c 01ec8c - - !L1; 01ec8c/a//1/000000/01\n\
an unknown id is not unlocked|F01a P0001ec8c O01a U01abcdef| 01ec8c 01ec8c 01ec8c -; 01ec8c/a//1/000000/01\n\
deleted after unlock|F01a P0001ec8c O01a U0101ec8c D12a O01a| 01ec8c 01ec8c 01ec8c - 01ec8c !V;\n\
a deleted disk is not deleted again|F01a P0001ec8c D01a D01a| 01ec8c 01ec8c 01ec8c !V;\n\
publish twice|F01a P0001ec8c P0001ec8c| 01ec8c 01ec8c -; 01ec8c/a//1/000000/-\n\
publish by another node|F01a P1001ec8c P0001ec8c| 01ec8c - 01ec8c; 01ec8c/a//1/000000/-\n\
publish of an unknown id|P00abcdef| -;\n\
a fresh disk is no clone|F01a C0001ec8c P0001ec8c| 01ec8c - 01ec8c; 01ec8c/a//1/000000/-\n\
a withdrawn reservation is not published|F01a U0101ec8c P0001ec8c| 01ec8c - -;\n\
another session withdraws nothing|F01a U0201ec8c U1101ec8c P0001ec8c| 01ec8c - - 01ec8c; 01ec8c/a//1/000000/-\n\
a snapshot|F01a P0001ec8c O01a S01a:t N0001ec8c:01ec8d| 01ec8c 01ec8c 01ec8c 01ec8d 01ec8d; 01ec8c/a/t/1/000000/- 01ec8d/a//1/01ec8c/01\n\
the lock moves along|F01a P0001ec8c O01a S01a:t N0001ec8c:01ec8d O12a U0101ec8d O12a| 01ec8c 01ec8c 01ec8c 01ec8d 01ec8d !L1 - 01ec8d; 01ec8c/a/t/1/000000/- 01ec8d/a//1/01ec8c/12\n\
the snapshot is held by nobody|F01a P0001ec8c O01a S01a:t N0001ec8c:01ec8d U0101ec8c O12a:t| 01ec8c 01ec8c 01ec8c 01ec8d 01ec8d - 01ec8c; 01ec8c/a/t/1/000000/- 01ec8d/a//1/01ec8c/01\n\
a snapshot without the lock|F01a P0001ec8c S01a:t| 01ec8c 01ec8c !N; 01ec8c/a//1/000000/-\n\
a snapshot of nothing|S01a:t| !N;\n\
a snapshot by another session|F01a P0001ec8c O01a S02a:t S11a:t| 01ec8c 01ec8c 01ec8c !N !N; 01ec8c/a//1/000000/01\n\
a second snapshot of the tag|F01a P0001ec8c O01a S01a:t N0001ec8c:01ec8d S01a:t| 01ec8c 01ec8c 01ec8c 01ec8d 01ec8d !E; 01ec8c/a/t/1/000000/- 01ec8d/a//1/01ec8c/01\n\
a second snapshot of another tag|F01a P0001ec8c O01a S01a:t N0001ec8c:01ec8d S01a:u N0001ec8d:01ec8e| 01ec8c 01ec8c 01ec8c 01ec8d 01ec8d 01ec8e 01ec8e; 01ec8c/a/t/1/000000/- 01ec8d/a/u/1/01ec8c/- 01ec8e/a//2/01ec8d/01\n\
a deleted snapshot frees the tag|F01a P0001ec8c O01a S01a:t N0001ec8c:01ec8d D01a:t S01a:t N0001ec8d:01ec8e| 01ec8c 01ec8c 01ec8c 01ec8d 01ec8d 01ec8c 01ec8e 01ec8e; 01ec8d/a/t/1/01ec8c/- 01ec8e/a//2/01ec8d/01\n\
two reservations of a tag, one after the other|F01a P0001ec8c O01a S01a:t S01a:t N0001ec8c:01ec8d N0001ec8c:01ec8e N0001ec8d:01ec8e| 01ec8c 01ec8c 01ec8c 01ec8d 01ec8e 01ec8d - -; 01ec8c/a/t/1/000000/- 01ec8d/a//1/01ec8c/01\n\
the lock is gone before the snapshot|F01a P0001ec8c O01a S01a:t U0101ec8c N0001ec8c:01ec8d| 01ec8c 01ec8c 01ec8c 01ec8d - -; 01ec8c/a//1/000000/-\n\
another holder at the snapshot|F01a P0001ec8c O01a S01a:t U0101ec8c O12a N0001ec8c:01ec8d O01a| 01ec8c 01ec8c 01ec8c 01ec8d - 01ec8c 01ec8d !L2; 01ec8c/a/t/1/000000/- 01ec8d/a//1/01ec8c/12\n\
a snapshot of the wrong base|F01a P0001ec8c O01a F02b P0001f1a5 O02b S01a:t N0001f1a5:01ec8d N0001ec8c:01ec8d| 01ec8c 01ec8c 01ec8c 01f1a5 01f1a5 01f1a5 01ec8d - 01ec8d; 01ec8c/a/t/1/000000/- 01ec8d/a//1/01ec8c/01 01f1a5/b//1/000000/02\n\
a snapshot by another node|F01a P0001ec8c O01a S01a:t N1001ec8c:01ec8d| 01ec8c 01ec8c 01ec8c 01ec8d -; 01ec8c/a//1/000000/01\n\
a snapshot reservation is not published|F01a P0001ec8c O01a S01a:t P0001ec8d C0001ec8d| 01ec8c 01ec8c 01ec8c 01ec8d - -; 01ec8c/a//1/000000/01\n\
a snapshot reservation bars the name once the disk is deleted|F01a P0001ec8c O01a S01a:t U0101ec8c D01a F12a U0101ec8d F12a| 01ec8c 01ec8c 01ec8c 01ec8d - 01ec8c !E - 01ec8e;\n\
a snapshot is opened by two|F01a P0001ec8c O01a S01a:t N0001ec8c:01ec8d O12a:t O23a:t U0101ec8c| 01ec8c 01ec8c 01ec8c 01ec8d 01ec8d 01ec8c 01ec8c -; 01ec8c/a/t/1/000000/- 01ec8d/a//1/01ec8c/01\n\
a missing tag|F01a P0001ec8c O01a:t D01a:t| 01ec8c 01ec8c !T !T; 01ec8c/a//1/000000/-\n\
no disk of the name, with a tag|O01a:t D01a:t| !V !V;\n\
no live disk of the name, with a tag|F01a P0001ec8c D01a O01a:t| 01ec8c 01ec8c 01ec8c !V;\n\
a snapshot outlives its disk|F01a P0001ec8c O01a S01a:t N0001ec8c:01ec8d U0101ec8d D01a O01a O01a:t F01a| 01ec8c 01ec8c 01ec8c 01ec8d 01ec8d - 01ec8d !V 01ec8c 01ec8e; 01ec8c/a/t/1/000000/-\n\
a snapshot is deleted|F01a P0001ec8c O01a S01a:t N0001ec8c:01ec8d D12a:t O12a:t D12a:t| 01ec8c 01ec8c 01ec8c 01ec8d 01ec8d 01ec8c !T !T; 01ec8d/a//1/01ec8c/01\n\
a deleted snapshot alone is not dead|F01a P0001ec8c O01a S01a:t N0001ec8c:01ec8d D12a:t| 01ec8c 01ec8c 01ec8c 01ec8d 01ec8d 01ec8c; 01ec8d/a//1/01ec8c/01\n\
it is with its working disk|F01a P0001ec8c O01a S01a:t N0001ec8c:01ec8d D12a:t U0101ec8d D12a| 01ec8c 01ec8c 01ec8c 01ec8d 01ec8d 01ec8c - 01ec8d;\n\
a clone|F01a P0001ec8c O01a S01a:t N0001ec8c:01ec8d K12b:a:t C1001f1a5| 01ec8c 01ec8c 01ec8c 01ec8d 01ec8d 01f1a5 01f1a5; 01ec8c/a/t/1/000000/- 01ec8d/a//1/01ec8c/01 01f1a5/b//1/01ec8c/-\n\
a clone of nothing|K01b:a:t| !B;\n\
a clone of a name whose disk is deleted|F01a P0001ec8c D01a K01b:a:t| 01ec8c 01ec8c 01ec8c !B;\n\
a clone of a reserved name|F01a K01b:a:t| 01ec8c !B;\n\
a clone of a missing tag|F01a P0001ec8c K01b:a:t| 01ec8c 01ec8c !T; 01ec8c/a//1/000000/-\n\
the base is looked at before the name|F01b P0001f1a5 K01b:a:t| 01f1a5 01f1a5 !B; 01f1a5/b//1/000000/-\n\
the tag is looked at before the name|F01b P0001f1a5 F01a P0001ec8c K01b:a:t| 01f1a5 01f1a5 01ec8c 01ec8c !T; 01ec8c/a//1/000000/- 01f1a5/b//1/000000/-\n\
a clone onto a published name|F01a P0001ec8c O01a S01a:t N0001ec8c:01ec8d F12b P1001f1a5 K12b:a:t| 01ec8c 01ec8c 01ec8c 01ec8d 01ec8d 01f1a5 01f1a5 !E; 01ec8c/a/t/1/000000/- 01ec8d/a//1/01ec8c/01 01f1a5/b//1/000000/-\n\
a clone onto a reserved name|F01a P0001ec8c O01a S01a:t N0001ec8c:01ec8d F12b K12b:a:t| 01ec8c 01ec8c 01ec8c 01ec8d 01ec8d 01f1a5 !E; 01ec8c/a/t/1/000000/- 01ec8d/a//1/01ec8c/01\n\
a clone onto its base's name|F01a P0001ec8c O01a S01a:t N0001ec8c:01ec8d K12a:a:t| 01ec8c 01ec8c 01ec8c 01ec8d 01ec8d !E; 01ec8c/a/t/1/000000/- 01ec8d/a//1/01ec8c/01\n\
a clone onto the name of a deleted disk|F01a P0001ec8c O01a S01a:t N0001ec8c:01ec8d U0101ec8d D01a K12a:a:t C1001ec8e| 01ec8c 01ec8c 01ec8c 01ec8d 01ec8d - 01ec8d 01ec8e 01ec8e; 01ec8c/a/t/1/000000/- 01ec8e/a//2/01ec8c/-\n\
a clone is no fresh disk|F01a P0001ec8c O01a S01a:t N0001ec8c:01ec8d K12b:a:t P1001f1a5 C1001f1a5| 01ec8c 01ec8c 01ec8c 01ec8d 01ec8d 01f1a5 - 01f1a5; 01ec8c/a/t/1/000000/- 01ec8d/a//1/01ec8c/01 01f1a5/b//1/01ec8c/-\n\
a clone keeps its base from being dead|F01a P0001ec8c O01a S01a:t N0001ec8c:01ec8d K12b:a:t C1001f1a5 D01a:t U0101ec8d D01a| 01ec8c 01ec8c 01ec8c 01ec8d 01ec8d 01f1a5 01f1a5 01ec8c - 01ec8d; 01f1a5/b//1/01ec8c/-\n\
until it goes too|F01a P0001ec8c O01a S01a:t N0001ec8c:01ec8d K12b:a:t C1001f1a5 D01a:t U0101ec8d D01a D01b| 01ec8c 01ec8c 01ec8c 01ec8d 01ec8d 01f1a5 01f1a5 01ec8c - 01ec8d 01f1a5;\n\
a standing clone reservation does the same|F01a P0001ec8c O01a S01a:t N0001ec8c:01ec8d K12b:a:t D01a:t U0101ec8d D01a| 01ec8c 01ec8c 01ec8c 01ec8d 01ec8d 01f1a5 01ec8c - 01ec8d;\n\
a snapshot of a clone|F01a P0001ec8c O01a S01a:t N0001ec8c:01ec8d K12b:a:t C1001f1a5 O12b S12b:t N1001f1a5:01f1a6| 01ec8c 01ec8c 01ec8c 01ec8d 01ec8d 01f1a5 01f1a5 01f1a5 01f1a6 01f1a6; 01ec8c/a/t/1/000000/- 01ec8d/a//1/01ec8c/01 01f1a5/b/t/1/01ec8c/- 01f1a6/b//1/01f1a5/12\n\
the number of snapshots goes with the name|F01a P0001ec8c O01a S01a:t N0001ec8c:01ec8d U0101ec8d D01a D01a:t F01a P0001ec8e O01a S01a:t N0001ec8e:01ec8f| 01ec8c 01ec8c 01ec8c 01ec8d 01ec8d - 01ec8d 01ec8c 01ec8e 01ec8e 01ec8e 01ec8f 01ec8f; 01ec8e/a/t/2/000000/- 01ec8f/a//2/01ec8e/01\n\
a lost node keeps its lock until its leave|F01a P0001ec8c O01a O12a X0 O12a| 01ec8c 01ec8c 01ec8c !L1 - 01ec8c; 01ec8c/a//1/000000/12\n\
a leave frees all of a node, and no more|F01a P0001ec8c O01a F12b P1001f1a5 O12b X0 O23a O23b| 01ec8c 01ec8c 01ec8c 01f1a5 01f1a5 01f1a5 - 01ec8c !L2; 01ec8c/a//1/000000/23 01f1a5/b//1/000000/12\n\
a leave frees reservations|F01a F12b X0 P0001ec8c P1001f1a5 F12a| 01ec8c 01f1a5 - - 01f1a5 01ec8d; 01f1a5/b//1/000000/-\n\
a leave of another node|F01a P0001ec8c O01a F03b X1 O12a P0001f1a5| 01ec8c 01ec8c 01ec8c 01f1a5 - !L1 01f1a5; 01ec8c/a//1/000000/01 01f1a5/b//1/000000/-\n\
a leave frees a clone reservation|F01a P0001ec8c O01a S01a:t N0001ec8c:01ec8d K12b:a:t D01a:t U0101ec8d D01a X1| 01ec8c 01ec8c 01ec8c 01ec8d 01ec8d 01f1a5 01ec8c - 01ec8d -;\n\
a leave takes a lost reservation for a snapshot|F01a P0001ec8c O01a S01a:t X0 N0001ec8c:01ec8d O12a| 01ec8c 01ec8c 01ec8c 01ec8d - - 01ec8c; 01ec8c/a//1/000000/12\n\
a node that left may come back, and holds nothing|F01a P0001ec8c O01a X0 J0 U0101ec8c O01a| 01ec8c 01ec8c 01ec8c - - - 01ec8c; 01ec8c/a//1/000000/01\n\
after the leave of a holder the next grant|F01a P0001ec8c O01a X0 O12a U0101ec8c O23a| 01ec8c 01ec8c 01ec8c - 01ec8c - !L2; 01ec8c/a//1/000000/12\n\
names are whole|F01ab P0045986a O01a O01ab O12abc| 45986a 45986a !V 45986a !V; 45986a/ab//1/000000/01\n\
a name may begin another|F01a P0001ec8c F01ab P0045986a D01a O01ab| 01ec8c 01ec8c 45986a 45986a 01ec8c 45986a; 45986a/ab//1/000000/01\n\
drawn 1|U01abcdef C00abcdef X0 N10abcdef:abcdef F02a U0201ec8c F01b S02a:t P0001f1a5 S02b:t F13a K01b:b:t P0001ec8d O13b O02b C0001ec8c P1001ec8d D01b U0101ec8c D02b:u N0001ec8d:01ec8d S02b:t C1001ec8d| - - - - 01ec8c - 01f1a5 !N 01f1a5 !N 01ec8d !T - 01f1a5 !L3 - 01ec8d !L3 - !T - !N -; 01ec8d/a//1/000000/- 01f1a5/b//1/000000/13\n\
drawn 2|F13a N0001ec8c:01ec8c S13a:t O13a P0001ec8c P0001ec8c N0001ec8c:01ec8c P1001ec8c K01c:b:u O01b O13a:t C1001ec8c O13b F13b D02a D01b P1001f1a5 O01b C0001f1a5 K13a:a:t N0001ec8c:01f1a5 O01b C1001f1a5| 01ec8c - !N !V - - - 01ec8c !B !V !T - !V 01f1a5 01ec8c !V 01f1a5 01f1a5 - !B - !L1 -; 01f1a5/b//1/000000/01\n\
drawn 3|O13a F01b O02a P0001f1a5 U0201f1a5 P0001f1a5 N1001f1a5:01f1a5 O02a P0001f1a5 P0001f1a5 C0001f1a5 N1001f1a5:01f1a5 O02b S02a:u S02a:u C0001f1a5 F13a O02a U0101f1a5 D02b N1001ec8c:01ec8c K13b:a:u C0001ec8c S02b:u| !V 01f1a5 !V 01f1a5 - - - !V - - - - 01f1a5 !N !N - 01ec8c !V - !L2 - !B - 01f1a6; 01f1a5/b//1/000000/02\n\
drawn 4|K13a:a:u N00abcdef:abcdef N00abcdef:abcdef P00abcdef O02a:t N10abcdef:abcdef C00abcdef P00abcdef N10abcdef:abcdef P00abcdef S01a:t F02b N0001f1a5:01f1a5 O01b:t S02a:u P0001f1a5 O13b:u F02a O02b C1001ec8c C1001ec8c P0001ec8c F02b| !B - - - !V - - - - - !N 01f1a5 - !V !N 01f1a5 !T 01ec8c 01f1a5 - - 01ec8c !E; 01ec8c/a//1/000000/- 01f1a5/b//1/000000/02\n\
drawn 5|P00abcdef O02b K01b:b:u O02a:t F13a N0001ec8c:01ec8c S13a:t O13a:t K01b:b:t K02a:a:u U0201ec8c F02b K02a:b:t C0001ec8c P0001f1a5 O02b S13b:u S02a:u F13a D13a N0001ec8c:01f1a5 K01c:b:t S02b:u O13a| - !V !B !V 01ec8c - !N !V !B !B - 01f1a5 !B - 01f1a5 01f1a5 !N !N !E !V - !T 01f1a6 !V; 01f1a5/b//1/000000/02\n\
drawn 6|X0 O02a:u C00abcdef K02c:a:t O02b P00abcdef C00abcdef O02b F01a K01a:b:t P0001ec8c O01b:u P0001ec8c O01a K02c:a:t S01a:t U1301ec8c N0001ec8c:01ec8d C1001ec8d P0001ec8d N1001ec8c:01ec8d D02b:t F01a| - !V - !B !V - - !V 01ec8c !B 01ec8c !V - 01ec8c !T 01ec8d - 01ec8d - - - !V !E; 01ec8c/a/t/1/000000/- 01ec8d/a//1/01ec8c/01\n\
drawn 7|D13a:u N00abcdef:abcdef F02b P0001f1a5 O02b N0001f1a5:01f1a5 O13a:t K01c:b:u O13a X0 F02b N0001f1a5:01f1a5 O13a P1001f1a5 F01a O02b:t O02b N0001ec8c:01ec8c S13a:t K13a:b:t U0201ec8c S13a:u D02a U0201f1a5| !V - 01f1a5 01f1a5 01f1a5 - !V !T !V - !E - !V - 01ec8c !T 01f1a5 - !N !T - !N !V -; 01f1a5/b//1/000000/-\n\
drawn 8|U02abcdef S02b:t S02a:t F13a F13b P0001f1a5 C0001f1a5 N0001ec8c:01f1a5 N1001f1a5:01f1a5 K01c:b:t U1301ec8c C0001f1a5 N0001ec8c:01f1a5 N0001ec8c:01f1a5 P1001f1a5 N0001ec8c:01f1a5 F01b N1001ec8c:01f1a5 U0201f1a5 U1301f1a5 F01a P0001ec8d| - !N !N 01ec8c 01f1a5 - - - - !B - - - - 01f1a5 - !E - - - 01ec8d 01ec8d; 01ec8d/a//1/000000/- 01f1a5/b//1/000000/-\n\
drawn 9|O01b:u F02a C1001ec8c C0001ec8c O13b O13a:t U1301ec8c U0201ec8c K13b:a:t O13a N1001ec8c:01ec8c O02a N0001ec8c:01ec8c N1001ec8c:01ec8c F02a N1001ec8c:01ec8d O02b:t P0001ec8d C0001ec8d K02c:b:u S02a:u D13a X0 K13a:a:u| !V 01ec8c - - !V !V - - !B !V - !V - - 01ec8d - !V 01ec8d - !B !N 01ec8d - !B;\n\
drawn 10|S13b:t N10abcdef:abcdef K02b:b:u N00abcdef:abcdef D13a N00abcdef:abcdef O01a U13abcdef O02a F01a S01a:t N0001ec8c:01ec8c O13a F02b C1001f1a5 C1001f1a5 U1301ec8c N0001f1a5:01f1a5 P0001f1a5 D13b U0101ec8c N0001f1a5:01f1a5 P0001ec8c| !N - !B - !V - !V - !V 01ec8c !N - !V 01f1a5 - - - - 01f1a5 01f1a5 - - -;\n\
drawn 11|D01b:t P10abcdef O02b:t O13b N00abcdef:abcdef S13a:t F01b U1301f1a5 N0001f1a5:01f1a5 F01b O02a P0001f1a5 C1001f1a5 C0001f1a5 K13b:b:t S01a:u O01b U1301f1a5 O02a D01a O01a:t C0001f1a5 S01a:u F13a| !V - !V !V - !N 01f1a5 - - !E !V 01f1a5 - - !T !N 01f1a5 - !V !V !V - !N 01ec8c; 01f1a5/b//1/000000/01\n\
drawn 12|O01b:u D01a:u P00abcdef C10abcdef N10abcdef:abcdef F01b O02b:t O01b:t C0001f1a5 P1001f1a5 O13b:t C0001f1a5 O02a O02a U1301f1a5 S02a:u P0001f1a5 N1001f1a5:01f1a5 P1001f1a5 O13b F13a O13a F01a| !V !V - - - 01f1a5 !V !V - - !V - !V !V - !N 01f1a5 - - 01f1a5 01ec8c !V !E; 01f1a5/b//1/000000/13\n\
drawn 13|F13a P1001ec8c S13a:u O01a:u O13a:t N1001ec8c:01ec8c K01c:b:u K02a:a:u P0001ec8c D02a:u D01a:u C1001ec8c C0001ec8c S01b:t N0001ec8c:01ec8c P1001ec8c D13a:t S13a:t S01a:u O02b O01a S02a:t F13b| 01ec8c 01ec8c !N !T !T - !B !T - !T !T - - !N - - !T !N !N !V 01ec8c !N 01f1a5; 01ec8c/a//1/000000/01\n\
drawn 14|K01b:b:u C10abcdef K02a:b:t D01a N00abcdef:abcdef N10abcdef:abcdef P00abcdef N00abcdef:abcdef P00abcdef F01b U1301f1a5 U0201f1a5 K02b:a:u K02c:b:t O01b F01a N0001f1a5:01ec8c F02b S13a:u O13b S01a:u P0001f1a5 O01b| !B - !B !V - - - - - 01f1a5 - - !B !B !V 01ec8c - !E !N !V !N 01f1a5 01f1a5; 01f1a5/b//1/000000/01\n\
drawn 15|N00abcdef:abcdef S02a:t C10abcdef C00abcdef N00abcdef:abcdef O01b:u O02a P10abcdef N00abcdef:abcdef K02a:b:t D02b K01c:a:t S01a:u S13b:u P00abcdef F01b P1001f1a5 U0101f1a5 O01b:t F01a P0001ec8c D13a D13b| - !N - - - !V !V - - !B !V !B !N !N - 01f1a5 - - !V 01ec8c 01ec8c 01ec8c !V;\n\
drawn 16|D01b U13abcdef O02b:t K13b:b:u U13abcdef N00abcdef:abcdef O02a S13b:u O01b P00abcdef U01abcdef F02b S01a:u K01a:a:t S01b:t F02a P0001ec8c F13a N0001f1a5:01ec8c D01a S02b:u P1001ec8c D13b:u| !V - !V !B - - !V !N !V - - 01f1a5 !N !B !N 01ec8c 01ec8c !E - 01ec8c !N - !V;\n\
drawn 17|C00abcdef O02a F02b N1001f1a5:01f1a5 O02a S01a:t C0001f1a5 P0001f1a5 S01a:t F13a O02a F13a K01b:b:u K02b:b:u N0001ec8c:01ec8c C00abcdef N0001ec8c:01ec8c S13a:u D02b U1301f1a5 P1001f1a5 S01b:t O13b| - !V 01f1a5 - !V !N - 01f1a5 !N 01ec8c !V !E !T !T - - - !N 01f1a5 - - !N !V;\n\
drawn 18|K13b:b:u O13a F01a K01b:b:u C0001ec8c C0001ec8c U1301ec8c C1001ec8c O02a:u C0001ec8c C1001ec8c N0001ec8c:01ec8c S13b:t F01a P0001ec8c O02b P1001ec8c F13b N0001ec8c:01f1a5 N0001ec8c:01f1a5 C0001f1a5 F13b P1001f1a5 S02b:u| !B !V 01ec8c !B - - - - !V - - - !N !E 01ec8c !V - 01f1a5 - - - !E 01f1a5 !N; 01ec8c/a//1/000000/- 01f1a5/b//1/000000/-\n\
drawn 19|P00abcdef O02a C00abcdef F02b U0101f1a5 K01b:a:t D13b O02b O13a F01a S01b:t P0001ec8c N0001ec8c:01ec8c C0001ec8c N0001f1a5:01ec8c O13a P0001ec8c S02a:u P1001ec8c N0001f1a5:01ec8c S02a:u P1001ec8c O02b O13b:u| - !V - 01f1a5 - !B !V !V !V 01ec8c !N 01ec8c - - - 01ec8c - !N - - !N - !V !V; 01ec8c/a//1/000000/13\n\
drawn 20|P00abcdef S02b:t K01b:b:u C00abcdef O02a U01abcdef F02b P0001f1a5 U01abcdef F02b N0001f1a5:01f1a5 O02a:t S01a:u F02a O13b O13a:t C0001ec8c U0101f1a5 S13a:u S13a:u S13a:u F01b C1001ec8c O01a:t| - !N !B - !V - 01f1a5 01f1a5 - !E - !V !N 01ec8c 01f1a5 !V - - !N !N !N !E - !V; 01f1a5/b//1/000000/13\n\
drawn 21|F13a P0001ec8c N1001ec8c:01ec8c P1001ec8c D01a S02b:t O13b O13b:u S02b:u D01b K13a:a:t S02a:t O13a:t S13a:u S01a:t D02b P0001ec8c N1001ec8c:01ec8c D02a F13b F01b N0001f1a5:01f1a5 F01b N0001f1a5:01f1a5| 01ec8c - - 01ec8c 01ec8c !N !V !V !N !V !B !N !V !N !N !V - - !V 01f1a5 !E - !E -;\n\
drawn 22|C00abcdef S02b:u N00abcdef:abcdef K13a:a:u F02b N0001f1a5:01f1a5 S13b:t P0001f1a5 S13a:t C0001f1a5 O01a C1001f1a5 O01a P0001f1a5 O01b P1001f1a5 O02b S13b:t N0001f1a5:01f1a5 C0001f1a5 S02a:u S01a:u N1001f1a5:01f1a5 F13a| - !N - !B 01f1a5 - !N 01f1a5 !N - !V - !V - 01f1a5 - !L1 !N - - !N !N - 01ec8c; 01f1a5/b//1/000000/01\n\
drawn 23|N00abcdef:abcdef F01b S01a:u C0001f1a5 N0001f1a5:01f1a5 N0001f1a5:01f1a5 U1301f1a5 K01a:a:t C0001f1a5 P0001f1a5 F02a D02a F01a S02a:t C0001ec8c X0 U0201ec8c K01a:a:t O13b C0001f1a5 P1001ec8c N0001f1a5:01ec8c O02a:u| - 01f1a5 !N - - - - !B - 01f1a5 01ec8c !V !E !N - - - !B 01f1a5 - - - !V; 01f1a5/b//1/000000/13\n\
drawn 24|F13a N1001ec8c:01ec8c U1301ec8c O01b F02a C0001ec8d U0201ec8d O02b O13b:t K02c:b:t N0001ec8c:01ec8d D02a F13a P0001ec8e D13b O02b S01b:u N1001ec8c:01ec8e O01b F02a D02a:u N1001ec8e:01ec8e F02b| 01ec8c - - !V 01ec8d - - !V !V !B - !V 01ec8e - !V !V !N - !V !E !V - 01f1a5;";

// A row: what it shows; the entries; each id that was asked for, + where it is dead then and - where it isn't.
// The rows were made up, or drawn where they say so and picked for having freed or deleted ids of both kinds. They were
// answered by a program in Python that was written apart from this one, by the rules alone.
pub const DEAD_ROWS: &[u8] = b"an id that was never granted|F01a| 01ec8c- abcdef-\n\
a reservation that is freed|F01a U0101ec8c| 01ec8c+\n\
a published disk|F01a P0001ec8c| 01ec8c-\n\
a deleted disk|F01a P0001ec8c D01a| 01ec8c+\n\
a snapshot and its working disk|F01a P0001ec8c O01a S01a:t N0001ec8c:01ec8d| 01ec8c- 01ec8d-\n\
a deleted snapshot has an heir|F01a P0001ec8c O01a S01a:t N0001ec8c:01ec8d D12a:t| 01ec8c- 01ec8d-\n\
a deleted working disk has none|F01a P0001ec8c O01a S01a:t N0001ec8c:01ec8d U0101ec8d D12a| 01ec8c- 01ec8d+\n\
both are deleted|F01a P0001ec8c O01a S01a:t N0001ec8c:01ec8d D12a:t U0101ec8d D12a| 01ec8c+ 01ec8d+\n\
a standing reservation with a base is an heir|F01a P0001ec8c O01a S01a:t N0001ec8c:01ec8d K12b:a:t D12a:t U0101ec8d D12a| 01ec8c- 01ec8d+ 01f1a5-\n\
until it is freed|F01a P0001ec8c O01a S01a:t N0001ec8c:01ec8d K12b:a:t D12a:t U0101ec8d D12a U1201f1a5| 01ec8c+ 01ec8d+ 01f1a5+\n\
or its node leaves|F01a P0001ec8c O01a S01a:t N0001ec8c:01ec8d K12b:a:t D02a:t U0101ec8d D02a X1| 01ec8c+ 01ec8d+ 01f1a5+\n\
a reservation for a snapshot too|F01a P0001ec8c O01a S01a:t U0101ec8c D12a| 01ec8c- 01ec8d-\n\
a clone is an heir|F01a P0001ec8c O01a S01a:t N0001ec8c:01ec8d K12b:a:t C1001f1a5 D12a:t U0101ec8d D12a| 01ec8c- 01ec8d+ 01f1a5-\n\
an heir of an heir|F01a P0001ec8c O01a S01a:t N0001ec8c:01ec8d K12b:a:t C1001f1a5 O12b S12b:u N1001f1a5:01f1a6 D12a:t U0101ec8d D12a D03b:u| 01ec8c- 01ec8d+ 01f1a5- 01f1a6-\n\
the whole chain goes with the last|F01a P0001ec8c O01a S01a:t N0001ec8c:01ec8d K12b:a:t C1001f1a5 O12b S12b:u N1001f1a5:01f1a6 D12a:t U0101ec8d D12a D03b:u U1201f1a6 D03b| 01ec8c+ 01ec8d+ 01f1a5+ 01f1a6+\n\
the last may go first|F01a P0001ec8c O01a S01a:t N0001ec8c:01ec8d K12b:a:t C1001f1a5 D03b U0101ec8d D12a D12a:t| 01ec8c+ 01ec8d+ 01f1a5+\n\
a leave frees two reservations of one base|F01a P0001ec8c O01a S01a:t N0001ec8c:01ec8d K12b:a:t K13c:a:t D02a:t U0101ec8d D02a X1| 01ec8c+ 01ec8d+ 01eff2+ 01f1a5+\n\
a leave frees no published disk|F01a P0001ec8c O01a S01a:t N0001ec8c:01ec8d K12b:a:t C1001f1a5 X1| 01ec8c- 01ec8d- 01f1a5-\n\
drawn 1|F12c P1001eff2 O01c S01c:u S01c:u S01c:t N0001eff2:01eff3 U0101eff4 N0001eff2:01eff5 U0101eff3 N0001eff2:01eff5 O23c U2301eff3 N0001eff2:01eff5 O12c D23c:u X3 N0001eff2:01eff5 S12c:t N1001eff3:01eff6 K23d:c:t N0001eff2:01eff5 U0101eff5 S12c:t D01c:t S12c:u| 01e773- 01eff2- 01eff3- 01eff4+ 01eff5+ 01eff6- 01eff7-\n\
drawn 2|F12b F34b P1001f1a5 O12b F23d P2001e773 S12b:t N1001f1a5:01f1a6 D23d S12b:u S12b:t N1001f1a6:01f1a7 D23b:u S12b:t D34b:t S12b:u S12b:u N1001f1a7:01f1a8 K01a:b:u U1201f1a9 C0001ec8c D12b:u S12b:t D01a U1201f1aa U1201f1a8| 01e773+ 01ec8c+ 01f1a5- 01f1a6- 01f1a7- 01f1a8- 01f1a9+ 01f1aa+\n\
drawn 3|F01b U0101f1a5 F01a P0001ec8c F34c P3001eff2 D12c D01a F12c P1001eff3 O23c S23c:t N2001eff3:01eff4 K01a:c:t U0101ec8d D34c:t S23c:u S23c:u N2001eff4:01eff5 D34c:u U2301eff5 O01c S01c:u N2001eff4:01eff6 N0001eff5:01eff7 S01c:t| 01ec8c+ 01ec8d+ 01eff2+ 01eff3- 01eff4- 01eff5- 01eff6- 01eff7- 01eff8- 01f1a5+\n\
drawn 4|F12c P1001eff2 D34c F23b P2001f1a5 F01a P0001ec8c O01a U0101ec8c O01a S01a:u O23b S01a:u U0101ec8e U2301f1a5 S01a:u X0 O34b S34b:t S34b:u O34a N3001f1a5:01f1a7 S34a:t N3001ec8c:01ec90 D23a:t D23b:u| 01ec8c- 01ec8d+ 01ec8e+ 01ec8f+ 01ec90- 01eff2+ 01f1a5- 01f1a6- 01f1a7-\n\
drawn 5|F01a P0001ec8c F01a O34a F01b U3401ec8c O34a P0001f1a5 S34a:t S34a:u N3001ec8c:01ec8d S34a:u N3001ec8d:01ec8f D23a:t N3001ec8c:01ec8e U3401ec8f K23b:a:u U3401ec8e D23a D12b K34d:a:u D12a:u C3001e773 X2 O12d S12d:u| 01e773- 01e774- 01ec8c- 01ec8d- 01ec8e+ 01ec8f+ 01f1a5+\n\
drawn 6|F01c F34c F01d F34a P3001ec8c D23a P0001e773 P0001eff2 O01c S01c:t U0101eff2 U0101eff3 D23d X1 O01c S01c:t N0001eff2:01eff4 D23c:t U0101eff4 X2 O01c S01c:u U0101eff4 N0001eff4:01eff5 D01c N0001eff4:01eff5| 01e773+ 01ec8c+ 01eff2- 01eff3+ 01eff4- 01eff5-\n\
drawn 7|F12b U1201f1a5 F34c F23d P2001e773 P3001eff2 D34c O34d U3401e773 O01d S01d:u N0001e773:01e774 K12b:d:u K12d:d:u S01d:t X2 N0001e774:01e775 U0101e775 K01b:d:u C1001f1a6 D12d:t K34d:d:u K34a:d:u D01d:u O12b C3001ec8c| 01e773- 01e774- 01e775- 01ec8c- 01eff2+ 01f1a5+ 01f1a6-\n\
drawn 8|F34d F01d F23a P2001ec8c D23a U3401e773 F01d P0001e774 O12d S12d:u N1001e774:01e775 S12d:t D23d:u N1001e775:01e776 S12d:u U1201e776 O01d D23d:t S01d:u U0101e776 N1001e776:01e777 N0001e776:01e778 X3 U1201e777 N0001e776:01e778 X2| 01e773+ 01e774- 01e775- 01e776- 01e777+ 01e778- 01ec8c+\n\
drawn 9|F12d P1001e773 O34d S34d:t N3001e773:01e774 D34d:t F23a S34d:u S34d:u P2001ec8c D34a U3401e775 S34d:t S34d:u N3001e774:01e776 X2 U3401e777 N3001e774:01e778 U3401e776 N3001e774:01e778 D01d K01b:d:u C0001f1a5 O01b K01d:d:u D34d:u| 01e773- 01e774- 01e775+ 01e776+ 01e777+ 01e778- 01ec8c+ 01f1a5-\n\
drawn 10|F12d F01a P0001ec8c P1001e773 D34d D23a F12c P1001eff2 O01c S01c:t N0001eff2:01eff3 D01c:t S01c:t N0001eff3:01eff4 K01b:c:t D01c:t S01c:t S01c:u S01c:t N0001eff4:01eff6 K23b:c:u D23c:u N0001eff4:01eff5 C0001f1a5 X0 O12b| 01e773+ 01ec8c+ 01eff2- 01eff3- 01eff4- 01eff5+ 01eff6- 01eff7+ 01f1a5-";
