// Files with every fault of a run by a line of its own, both ends of its limits, and which of two faults comes first.
use crate::{Answers, Listing, run_file};
use analysis::records::{Entry, Vertex};
use model::make;
use sets::{AncestorSets, HalvedLinks, WrittenTops};

// Whether the texts of the blocks, one after another, are what is expected.
fn told(blocks: &[[u8; 32]], expected: &[u8]) -> bool {
    blocks.iter().flatten().filter(|b| **b != 0).eq(expected)
}

// Whether a run over room for 512 vertices, 3 entries and so many in the sets answers this.
fn answers(file: &[u8], links: &mut [u32], expected: &[u8]) -> bool {
    let mut vertices = [Vertex::new(); 512];
    let mut entries = [Entry::new(); 3];
    let mut blocks = [[0u8; 32]; 12];
    let mut model = make(0, &mut vertices, &mut entries);
    let mut sets = HalvedLinks::new(links);
    let mut listing = Listing::new(&mut blocks);
    run_file(file, &mut model, &mut sets, &mut listing);
    told(&blocks, expected)
}

#[test]
fn files_of_32_768_bytes_and_of_32_769(rt: HostRuntime) {
    let file = [b'x'; 32_769];
    assert!(rt; answers(&file[0..32_768], &mut [0; 1], b"E,1,0,2\n"));
    assert!(rt; answers(&file, &mut [0; 1], b"E,0,0,1\n"));
    assert!(rt; answers(b"", &mut [0; 1], b""));
}

// What the sets stand for after a file: the last accepted analysis, whatever lines come after it.
#[test]
fn sets_after_a_file(rt: HostRuntime) {
    let mut vertices = [Vertex::new(); 3];
    let mut entries = [Entry::new(); 3];
    let mut numbers = [0; 4];
    let mut blocks = [[0u8; 32]; 7];
    let mut model = make(0, &mut vertices, &mut entries);
    let mut sets = WrittenTops::new(&mut numbers);
    let mut listing = Listing::new(&mut blocks);
    let file = b"M,X,3\nP,1,3\nA\nP,1,2\nU,1\nM,X,2\nA,1\n";
    run_file(file, &mut model, &mut sets, &mut listing);
    assert_eq!(rt; sets.find(1), Some(3));
    assert_eq!(rt; sets.find(2), Some(2));
    assert_eq!(rt; sets.find(4), None);
    run_file(&[b'A'; 32_769], &mut model, &mut sets, &mut listing);
    assert_eq!(rt; sets.find(1), Some(3));
    assert_eq!(rt; model.held(), 2);
}

#[test]
fn orders(rt: HostRuntime) {
    let file = b"M,X,0\nM,X,513\nM,X,16384\nM,X,16385\nM,X,512\nM,X,0\n";
    let expected = b"E,1,3,8\nE,2,3,9\nE,3,3,9\nE,4,3,8\nM,X,512\nE,6,1,7\n";
    assert!(rt; answers(file, &mut [0; 1], expected));
}

#[test]
fn lines_before_the_model(rt: HostRuntime) {
    let file = b"P,0,0\nA\nU,1\nD,1,z\nM,X,513\nA\n";
    let expected = b"E,1,1,7\nE,2,1,7\nE,3,1,7\nE,4,3,6\nE,5,3,9\nE,6,1,7\n";
    assert!(rt; answers(file, &mut [0; 1], expected));
}

#[test]
fn vertices_of_an_entry(rt: HostRuntime) {
    let file = b"M,X,3\nP,3,4\nP,4,4\nP,0,1\nP,3,3\nD,1,3\nP,3,1\nP,1,3\nD,2,2\n";
    let expected =
        b"M,X,3\nE,2,3,10\nE,3,2,10\nE,4,2,10\nE,5,0,11\nE,6,0,14\nP,1\nE,8,0,12\nE,9,0,11\n";
    assert!(rt; answers(file, &mut [0; 1], expected));
}

#[test]
fn capacity(rt: HostRuntime) {
    let file = b"M,X,4\nP,1,2\nP,2,3\nP,3,4\nP,2,1\nP,1,4\nD,1,2\nP,1,4\n";
    let expected = b"M,X,4\nP,1\nP,2\nP,3\nE,5,0,12\nE,6,0,13\nD,2\nP,3\n";
    assert!(rt; answers(file, &mut [0; 1], expected));
}

#[test]
fn questions(rt: HostRuntime) {
    let file = b"M,X,2\nU,1\nU,3\nA\nU,1\nP,1,2\nC,1\nA\nP,1,2\nU,1\nA\nC,1\n";
    let expected =
        b"M,X,2\nE,2,0,15\nE,3,2,10\nA,2\nU,1,0\nP,1\nE,7,0,15\nA,3\nE,9,0,12\nU,1,2\nA,3\nC,1,2\n";
    assert!(rt; answers(file, &mut [0; 2], expected));
    assert!(rt; answers(b"M,X,2\nA\n", &mut [0; 1], b"M,X,2\nE,2,3,9\n"));
}
